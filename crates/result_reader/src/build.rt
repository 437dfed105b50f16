//! The entries of lines, as they are read.

ghost use Rattle.std.specs.Prelude.{◌≡◌, ℕ, Bool, ◌+◌, [], ◌∷◌, ◌++◌, false, length, map, if◌then◌else◌, IfOk, IfSome};
ghost use Rattle.std.specs.List.{flat_map};
ghost use Rattle.height_cert.specs.Certs.{head_of, ranges_in};
ghost use Rattle.result_laws.specs.Reading as reading;
ghost use Rattle.result_reader.specs.Built.{IsBuilt, IsHeld, MayHold, MayStand, StepsOrNot, Takes, TakesOrNot, may_column};
ghost use Rattle.result_reader.specs.Built.{may_range, open_entry, open_range, place_of, plain_column, plain_lines, plain_range};
ghost use Rattle.result_reader.specs.Built.{taken};
ghost use Rattle.result_reader.specs.Lines.{NoSizes, said};

use crate::line::CertLine;
use flow_list::{ColLine, Range, Reason, SizeEntry};
use height_cert::{Cert, CertEntry, Cites};
use mc_base::{List, NoMemory};
use std::alloc::Global;

/// What is built of the lines that were read so far: whole entries, the sizes that column lines cite, and the numbers of the
/// lines of entries and ranges; the last entry with its whole ranges, and the last range with its column lines, that more may
/// follow.
#[derive(Drop)]
pub struct Building {
    pub entries: List<CertEntry>,
    pub cites: List<Cites>,
    pub numbers: List<u64>,
    pub entry: Option<CertEntry>,
    pub ranges: List<Range>,
    pub range: Option<Range>,
    pub columns: List<ColLine>,
}

/// The ranges with the last one, which has these column lines.
#[tactic(auto, using(crate::proofs::Building::close_rules))]
fn close_range(
    mut ranges: List<Range>,
    range: Option<Range>,
    columns: List<ColLine>,
) -> Result<List<Range>, NoMemory>
    requires { MayStand range columns }
    ensures { IfOk result (λ all. flat_map plain_range all
        ≡ flat_map plain_range ranges ++ (open_range range ++ map plain_column columns)) }
{
    if let Some(range) = range {
        ranges.push(Range {
            lo: range.lo,
            hi: range.hi,
            reason: range.reason,
            cols: columns,
        })?;
    }
    Ok(ranges)
}

/// An entry with these ranges, of which one with `column-fill: auto` has none.
fn with_ranges(entry: CertEntry, ranges: List<Range>) -> CertEntry
    requires { MayHold (Some entry) ranges }
    ensures head { head_of result ≡ head_of entry }
    ensures ranges { ranges_in result ≡ ranges }
{
    match entry {
        CertEntry::Size(size) => CertEntry::Size(SizeEntry {
            row: size.row,
            from: size.from,
            height: size.height,
            ranges,
        }),
        CertEntry::Row {
            row,
            available,
            height,
            fits,
            ..
        } => CertEntry::Row {
            row,
            available,
            height,
            fits,
            ranges,
        },
        CertEntry::Auto {
            row,
            available,
            height,
        } => CertEntry::Auto {
            row,
            available,
            height,
        },
    }
}

/// The entries with the last one, which has these ranges.
#[tactic(auto, using(crate::proofs::Building::close_rules))]
fn close_entry(
    mut entries: List<CertEntry>,
    entry: Option<CertEntry>,
    ranges: List<Range>,
) -> Result<List<CertEntry>, NoMemory>
    requires { MayHold entry ranges }
    ensures { IfOk result (λ all. plain_lines all
        ≡ plain_lines entries ++ (open_entry entry ++ flat_map plain_range ranges)) }
{
    if let Some(entry) = entry {
        entries.push(with_ranges(entry, ranges))?;
    }
    Ok(entries)
}

/// Whether ranges may stand below this entry.
fn may_have_ranges(entry: &Option<CertEntry>) -> bool
    ensures { result ≡ may_range entry.now }
{
    match entry {
        Some(CertEntry::Size(_)) => true,
        Some(CertEntry::Row { .. }) => true,
        Some(CertEntry::Auto { .. }) => false,
        None => false,
    }
}

/// Whether column lines may stand below this range.
fn may_have_columns(range: &Option<Range>) -> bool
    ensures { result ≡ may_column range.now }
{
    let Some(range) = range else {
        return false;
    };
    match &range.reason {
        Reason::Tall { .. } => false,
        Reason::Area => false,
        Reason::Left { .. } => true,
        Reason::Bad { .. } => true,
        Reason::Over { .. } => true,
    }
}

impl Building {
    /// Nothing yet. It takes no memory.
    pub fn new(alloc: Global) -> Self
        ensures built { (cites : Bool) (n : ℕ) → IsBuilt cites n result }
        ensures lines { taken result ≡ [] }
        ensures place { place_of result ≡ reading.no_range }
    {
        Building {
            entries: List::new(alloc),
            cites: List::new(alloc),
            numbers: List::new(alloc),
            entry: None,
            ranges: List::new(alloc),
            range: None,
            columns: List::new(alloc),
        }
    }

    /// With an entry that stands on this line.
    #[tactic(auto, using(crate::proofs::Building::take_rules))]
    fn with_entry(self, alloc: Global, entry: CertEntry, at: u64) -> Result<Self, NoMemory>
        requires { IsHeld self }
        ensures takes { IfOk result (λ next. Takes self (reading.entry (head_of entry)) next) }
        ensures cites { IfOk result (λ next. next.cites ≡ self.cites) }
        ensures numbers { IfOk result (λ next. next.numbers ≡ self.numbers ++ at ∷ []) }
    {
        let Building {
            entries,
            cites,
            mut numbers,
            entry: last,
            ranges,
            range,
            columns,
        } = self;
        let ranges = close_range(ranges, range, columns)?;
        let entries = close_entry(entries, last, ranges)?;
        numbers.push(at)?;
        Ok(Building {
            entries,
            cites,
            numbers,
            entry: Some(entry),
            ranges: List::new(alloc),
            range: None,
            columns: List::new(alloc),
        })
    }

    /// With a range that stands on this line, where it may.
    #[tactic(auto, using(crate::proofs::Building::take_rules))]
    fn with_range(self, alloc: Global, range: Range, at: u64) -> Result<Option<Self>, NoMemory>
        requires { IsHeld self }
        ensures takes { IfOk result (λ next.
            TakesOrNot self (reading.range range.low range.high range.reason) next) }
        ensures cites { IfOk result (λ next. IfSome next (λ b. b.cites ≡ self.cites)) }
        ensures numbers { IfOk result (λ next. IfSome next (λ b. b.numbers ≡ self.numbers ++ at ∷ [])) }
    {
        if !may_have_ranges(&self.entry) {
            return Ok(None);
        }
        let Building {
            entries,
            cites,
            mut numbers,
            entry,
            ranges,
            range: last,
            columns,
        } = self;
        let ranges = close_range(ranges, last, columns)?;
        numbers.push(at)?;
        Ok(Some(Building {
            entries,
            cites,
            numbers,
            entry,
            ranges,
            range: Some(range),
            columns: List::new(alloc),
        }))
    }

    /// With a column line, where it may stand, and with the sizes that it cites in the second format.
    #[tactic(auto, using(crate::proofs::Building::take_rules))]
    fn with_column(
        self,
        second: bool,
        line: ColLine,
        sizes: Cites,
    ) -> Result<Option<Self>, NoMemory>
        requires { IsHeld self }
        ensures takes { IfOk result (λ next. TakesOrNot self (plain_column line) next) }
        ensures cites { IfOk result (λ next.
            IfSome next (λ b. b.cites ≡ (if second then self.cites ++ sizes ∷ [] else self.cites))) }
        ensures numbers { IfOk result (λ next. IfSome next (λ b. b.numbers ≡ self.numbers)) }
    {
        if !may_have_columns(&self.range) {
            return Ok(None);
        }
        let Building {
            entries,
            mut cites,
            numbers,
            entry,
            ranges,
            range,
            mut columns,
        } = self;
        columns.push(line)?;
        if second {
            cites.push(sizes)?;
        }
        Ok(Some(Building {
            entries,
            cites,
            numbers,
            entry,
            ranges,
            range,
            columns,
        }))
    }

    /// With a line that isn't `end`, where it may stand.
    #[tactic(auto, using(crate::proofs::Building::take_rules))]
    pub fn with_line(
        self,
        alloc: Global,
        second: bool,
        line: CertLine,
        at: u64,
    ) -> Result<Option<Self>, NoMemory>
        requires held { IsHeld self }
        requires goes_on { reading.is_close (said line) ≡ false }
        requires sizes { NoSizes second line }
        ensures { IfOk result (λ next. (n : ℕ) → IsBuilt second n self → at ≡ n + length (taken self)
            → StepsOrNot second n self (said line) next) }
    {
        match line {
            CertLine::Entry(entry) => Ok(Some(self.with_entry(alloc, entry, at)?)),
            CertLine::Rejected(range) => self.with_range(alloc, range, at),
            CertLine::Column { line, cites } => self.with_column(second, line, cites),
            CertLine::Close => Ok(None),
        }
    }

    /// The certificate, and the numbers of the lines of its entries and ranges.
    pub fn finish(self) -> Result<(Cert, List<u64>), NoMemory>
        requires { IsHeld self }
        ensures entries { IfOk result (λ all. plain_lines all.0.entries ≡ taken self) }
        ensures cites { IfOk result (λ all. all.0.cites ≡ self.cites) }
        ensures numbers { IfOk result (λ all. all.1 ≡ self.numbers) }
    {
        let Building {
            entries,
            cites,
            numbers,
            entry,
            ranges,
            range,
            columns,
        } = self;
        let ranges = close_range(ranges, range, columns)?;
        let entries = close_entry(entries, entry, ranges)?;
        Ok((Cert { entries, cites }, numbers))
    }
}
