//! The edges with which a box opens and closes.

ghost use Rattle.std.specs.Prelude.{◌≡◌, ◌∷◌, [], ◌++◌, IfOk};
ghost use Rattle.box_data.specs.DocumentFlows as document;

use box_data::{BoxKind, Placed};
use flow_data::Edge;
use mc_base::{List, NoMemory, Units};

/// The edges, and this one after them.
fn with_edge(edges: List<Edge>, edge: Edge) -> Result<List<Edge>, NoMemory>
    ensures { IfOk result (λ es. es ≡ edges ++ edge ∷ []) }
{
    let mut edges = edges;
    edges.push(edge)?;
    Ok(edges)
}

/// The edges, and this margin after them unless it is zero.
fn with_margin(edges: List<Edge>, amount: Units) -> Result<List<Edge>, NoMemory>
    ensures { IfOk result (λ es. es ≡ edges ++ document.margin_edge amount) }
{
    if amount == 0 {
        Ok(edges)
    } else {
        with_edge(edges, Edge::Margin(amount))
    }
}

/// The edges, and this border and padding after them unless they are zero.
fn with_solid(edges: List<Edge>, amount: Units) -> Result<List<Edge>, NoMemory>
    ensures { IfOk result (λ es. es ≡ edges ++ document.solid_edge amount) }
{
    if amount == 0 {
        Ok(edges)
    } else {
        with_edge(edges, Edge::Solid(amount))
    }
}

/// The edges, and a wall after them where the box starts a new block formatting context (CSS 2.1, section 9.4.1; CSS
/// Multi-column 1, section 2).
fn with_wall(edges: List<Edge>, p: &Placed) -> Result<List<Edge>, NoMemory>
    ensures { IfOk result (λ es. es ≡ edges ++ document.wall_edge p.now) }
{
    if matches!(p.kind, BoxKind::Container) || p.spans || p.number == 0 {
        with_edge(edges, Edge::Wall)
    } else {
        Ok(edges)
    }
}

/// The edges, and those with which a box opens after them.
pub fn with_opening(edges: List<Edge>, p: &Placed) -> Result<List<Edge>, NoMemory>
    ensures { IfOk result (λ es. es ≡ edges ++ document.opening p.now) }
{
    let edges = with_margin(edges, p.margin.top)?;
    let edges = with_edge(edges, Edge::Start(p.number))?;
    let edges = with_solid(edges, p.top)?;
    with_wall(edges, p)
}

/// The edges, and those with which a box closes after them.
pub fn with_closing(edges: List<Edge>, p: &Placed) -> Result<List<Edge>, NoMemory>
    ensures { IfOk result (λ es. es ≡ edges ++ document.closing p.now) }
{
    let edges = with_wall(edges, p)?;
    let edges = with_solid(edges, p.bottom)?;
    let edges = with_edge(edges, Edge::End(p.number))?;
    with_margin(edges, p.margin.bottom)
}
