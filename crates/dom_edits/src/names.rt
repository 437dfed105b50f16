//! What the rules say of names. Names are in lower case.

ghost use Rattle.std.specs.Prelude.{◌≡◌, map};
ghost use Rattle.html_grammar.specs.Names as grammar;

/// Whether two names are one.
#[tactic(auto, unfolding(html_grammar::specs::Names::same))]
pub fn same(a: &[u8], b: &[u8]) -> bool
    ensures { result ≡ grammar.same a.now b.now }
{
    a == b
}

fn is_in(name: &[u8], names: &[&[u8]]) -> bool
    ensures { result ≡ grammar.is_in name.now (map (λ n. n.now) names.now) }
{
    for other in names {
        if same(name, other) {
            return true;
        }
    }
    false
}

/// Elements without content (HTML, "void elements"; this profile's list).
#[tactic(auto, unfolding(html_grammar::specs::Names::is_void))]
pub fn is_void(name: &[u8]) -> bool
    ensures { result ≡ grammar.is_void name.now }
{
    is_in(
        name,
        &[
            b"area", b"base", b"br", b"col", b"embed", b"hr", b"img", b"input", b"link", b"meta",
            b"source", b"track", b"wbr",
        ],
    )
}
