//! What the declarations of a block set.

ghost use Rattle.std.specs.Prelude.{◌≡◌, [], ◌++◌, IfOk, OnOk};
ghost use Rattle.css_winner.specs.Settings as settings;
ghost use Rattle.css_winner.specs.declared.setting.Given.TheVariants.{Refused as IsRefused};

use css_data::RawDeclaration;
use css_values::{Declared, Longhand, Target, Value, parse_declaration, targets_of};
use mc_base::{ConstructName, List, NoMemory};
use std::alloc::{AllocError, Global};

/// What a declaration gives to a property: a value, a value without effect where the property isn't laid out, or what is
/// refused in it.
#[derive(Drop)]
pub enum Given {
    Value(Value),
    Harmless,
    Refused(ConstructName),
}

/// One property that a declaration is about, and what it gives to it.
#[derive(Drop)]
pub struct Setting {
    pub important: bool,
    pub target: Target,
    pub given: Given,
}

/// Refuses each of these properties.
fn add_refused(
    found: &mut List<Setting>,
    important: bool,
    targets: &[Target],
    name: ConstructName,
) -> Result<(), AllocError>
    ensures { OnOk result (found.new ≡ found.old ++ settings.refused important targets.now name) }
{
    for target in targets {
        found.push(Setting {
            important,
            target: *target,
            given: Given::Refused(name),
        })?;
    }
    Ok(())
}

/// Gives each property its value.
fn add_values(
    found: &mut List<Setting>,
    important: bool,
    longhands: List<Longhand>,
) -> Result<(), AllocError>
    ensures { OnOk result (found.new ≡ found.old ++ settings.valued important longhands) }
{
    for longhand in longhands.into_vec() {
        found.push(Setting {
            important,
            target: Target::Laid(longhand.property),
            given: Given::Value(longhand.value),
        })?;
    }
    Ok(())
}

/// Gives each property that isn't laid out a value without effect.
fn add_harmless(
    found: &mut List<Setting>,
    important: bool,
    targets: &[Target],
) -> Result<(), AllocError>
    ensures { OnOk result (found.new ≡ found.old ++ settings.harmless important targets.now) }
{
    for target in targets {
        if let Target::Unlaid(_) = target {
            found.push(Setting {
                important,
                target: *target,
                given: Given::Harmless,
            })?;
        }
    }
    Ok(())
}

/// Adds what a declaration of these properties says.
fn add_declared(
    found: &mut List<Setting>,
    important: bool,
    targets: &[Target],
    declared: Declared,
) -> Result<(), AllocError>
    ensures { OnOk result (found.new ≡ found.old ++ settings.given_by important targets.now declared) }
{
    match declared {
        Declared::Ignored => Ok(()),
        Declared::Refused(name) => add_refused(found, important, targets, name),
        Declared::Set(longhands) => {
            add_values(found, important, longhands)?;
            add_harmless(found, important, targets)
        }
    }
}

/// Adds what a declaration sets.
fn add_declaration(
    alloc: Global,
    found: &mut List<Setting>,
    declaration: &RawDeclaration,
) -> Result<(), NoMemory>
    ensures { OnOk result (found.new ≡ found.old ++ settings.settings_at declaration.now) }
{
    let name = declaration.name.as_slice();
    let targets = targets_of(alloc, name)?;
    let declared = parse_declaration(alloc, name, declaration.value.as_slice())?;
    add_declared(found, declaration.important, targets.as_slice(), declared)?;
    Ok(())
}

/// What the declarations of a block set, in order.
pub fn settings_of(
    alloc: Global,
    declarations: &[RawDeclaration],
) -> Result<List<Setting>, NoMemory>
    ensures { IfOk result (λ found. found ≡ settings.settings_of declarations.now) }
{
    let mut found = List::new(alloc);
    for declaration in declarations {
        add_declaration(alloc, &mut found, declaration)?;
    }
    Ok(found)
}
