//! What the rules say of names. Names are in lower case.

ghost use Rattle.std.specs.Prelude.{◌≡◌, map};
ghost use Rattle.html_grammar.specs.Names as grammar;

/// Whether two names are one.
#[tactic(auto, unfolding(html_grammar::specs::Names::same))]
pub fn same(a: &[u8], b: &[u8]) -> bool
    ensures { result ≡ grammar.same a.now b.now }
{
    a == b
}

fn is_in(name: &[u8], names: &[&[u8]]) -> bool
    ensures { result ≡ grammar.is_in name.now (map (λ n. n.now) names.now) }
{
    for other in names {
        if same(name, other) {
            return true;
        }
    }
    false
}

/// The elements that are there once, at their own places.
#[tactic(auto, unfolding(html_grammar::specs::Names::is_outer))]
pub fn is_outer(name: &[u8]) -> bool
    ensures { result ≡ grammar.is_outer name.now }
{
    is_in(name, &[b"html", b"head", b"body"])
}

/// Elements without content (HTML, "void elements"; this profile's list).
#[tactic(auto, unfolding(html_grammar::specs::Names::is_void))]
pub fn is_void(name: &[u8]) -> bool
    ensures { result ≡ grammar.is_void name.now }
{
    is_in(
        name,
        &[
            b"area", b"base", b"br", b"col", b"embed", b"hr", b"img", b"input", b"link", b"meta",
            b"source", b"track", b"wbr",
        ],
    )
}

/// Elements whose content is raw text.
#[tactic(auto, unfolding(html_grammar::specs::Names::is_raw))]
pub fn is_raw(name: &[u8]) -> bool
    ensures { result ≡ grammar.is_raw name.now }
{
    is_in(name, &[b"style", b"script", b"title"])
}

/// Elements of the head that are no raw text.
#[tactic(auto, unfolding(html_grammar::specs::Names::is_head_void))]
pub fn is_head_void(name: &[u8]) -> bool
    ensures { result ≡ grammar.is_head_void name.now }
{
    is_in(name, &[b"meta", b"link", b"base"])
}

/// Elements whose end tag may be missing.
#[tactic(auto, unfolding(html_grammar::specs::Names::omits))]
pub fn omits(name: &[u8]) -> bool
    ensures { result ≡ grammar.omits name.now }
{
    is_in(name, &[b"p", b"li", b"dt", b"dd", b"body", b"html"])
}

/// Elements whose start tag closes an innermost `p`.
#[tactic(auto, unfolding(html_grammar::specs::Names::is_block))]
fn is_block(name: &[u8]) -> bool
    ensures { result ≡ grammar.is_block name.now }
{
    is_in(
        name,
        &[
            b"address",
            b"article",
            b"aside",
            b"blockquote",
            b"details",
            b"div",
            b"dl",
            b"fieldset",
            b"figcaption",
            b"figure",
            b"footer",
            b"form",
            b"h1",
            b"h2",
            b"h3",
            b"h4",
            b"h5",
            b"h6",
            b"header",
            b"hgroup",
            b"hr",
            b"main",
            b"menu",
            b"nav",
            b"ol",
            b"p",
            b"pre",
            b"search",
            b"section",
            b"ul",
        ],
    )
}

/// The parts of lists, whose start tags close an innermost `p` too.
#[tactic(auto, unfolding(html_grammar::specs::Names::is_list_part))]
fn is_list_part(name: &[u8]) -> bool
    ensures { result ≡ grammar.is_list_part name.now }
{
    is_in(name, &[b"li", b"dt", b"dd"])
}

#[tactic(auto, unfolding(html_grammar::specs::Names::is_definition))]
fn is_definition(name: &[u8]) -> bool
    ensures { result ≡ grammar.is_definition name.now }
{
    is_in(name, &[b"dt", b"dd"])
}

/// Whether a start tag of the first name closes an innermost element of the second.
#[tactic(auto, unfolding(html_grammar::specs::Names::closes))]
pub fn closes(tag: &[u8], name: &[u8]) -> bool
    ensures { result ≡ grammar.closes tag.now name.now }
{
    (same(name, b"p") && (is_block(tag) || is_list_part(tag)))
        || ((same(name, b"li") && same(tag, b"li")) || (is_definition(name) && is_definition(tag)))
}

/// Elements that this profile names and doesn't lay out.
#[tactic(auto, unfolding(html_grammar::specs::Names::is_refused))]
pub fn is_refused(name: &[u8]) -> bool
    ensures { result ≡ grammar.is_refused name.now }
{
    is_in(
        name,
        &[
            b"table",
            b"caption",
            b"colgroup",
            b"col",
            b"thead",
            b"tbody",
            b"tfoot",
            b"tr",
            b"td",
            b"th",
            b"input",
            b"button",
            b"select",
            b"textarea",
            b"iframe",
            b"object",
            b"embed",
            b"video",
            b"audio",
            b"canvas",
            b"svg",
            b"math",
            b"frameset",
            b"frame",
            b"noframes",
            b"plaintext",
            b"xmp",
            b"ruby",
        ],
    )
}
