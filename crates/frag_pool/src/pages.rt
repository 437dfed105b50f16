//! Nodes in pages of 256: where one is added, no other moves.

ghost use Rattle.std.specs.Prelude.{◌≡◌, ◌<◌, ◌≤◌, ◌∷◌, ◌++◌, [], IfErr, OnErr, OnOk, Some, length, slice_get, take};
ghost use Rattle.frag_pool.specs.Pages.{AreFull, paged};

use crate::pool::NodeBack;
use mc_base::{NoMemory, Node};
use std::alloc::Global;
use std::marker::Model;
use std::mem;

/// The number of nodes in a full page.
const PAGE: usize = 256;

/// Full pages, the page that is being filled, and emptied ones for later.
#[derive(Drop)]
struct PageStack {
    full: Vec<Vec<Node>>,
    last: Vec<Node>,
    spare: Vec<Vec<Node>>,
}

impl PageStack {
    /// Begins a new page. When out of memory, the nodes are as before.
    fn push_page(&mut self) -> Result<(), NoMemory>
        ensures full { OnOk result (self.new.full.items ≡ self.old.full.items ++ self.old.last ∷ []) }
        ensures last { OnOk result (self.new.last.items ≡ []) }
        ensures full_stays { OnErr result (self.new.full.items ≡ self.old.full.items) }
        ensures last_stays { OnErr result (self.new.last.items ≡ self.old.last.items) }
    {
        let mut fresh = match self.spare.pop() {
            Some(page) => page,
            None => Vec::with_capacity(*self.last.allocator(), PAGE)?,
        };
        fresh.clear();
        let page = mem::replace(&mut self.last, fresh);
        if let Err(failed) = self.full.push(page) {
            self.last = failed.value;
            return Err(NoMemory);
        }
        Ok(())
    }

    /// Sees to it that the last page has room. When out of memory, the nodes are the same all the same.
    fn make_room(&mut self) -> Result<(), NoMemory>
        requires full { AreFull self.old.full.items }
        requires last { length self.old.last.items ≤ 256 }
        ensures same { paged self.new.full.items self.new.last.items ≡ paged self.old.full.items self.old.last.items }
        ensures full { AreFull self.new.full.items }
        ensures last { length self.new.last.items ≤ 256 }
        ensures room { OnOk result (length self.new.last.items < 256) }
    {
        if self.last.len() == PAGE {
            self.push_page()?;
        }
        Ok(())
    }

    /// Empties the last page, and goes back to the one before it.
    fn pop_page(&mut self)
        requires { 0 < length self.old.full.items }
        ensures { self.old.full.items ≡ self.new.full.items ++ self.new.last ∷ [] }
    {
        if let Some(page) = self.full.pop() {
            let emptied = mem::replace(&mut self.last, page);
            // Where there is no memory to keep it for later, it goes.
            if self.spare.push(emptied).is_err() {}
        }
    }
}

/// Nodes, in the order in which they were added.
#[derive(Drop)]
pub struct Pages {
    stack: PageStack,
    count: u64,
}

impl Model for Pages {
    ghost use Rattle.std.specs.Prelude.{List};
    ghost use Rattle.mc_base.specs.declared.fragment.Node.{Node};
    ghost use Rattle.frag_pool.specs.Pages.{ArePages, paged};

    ghost Value = { List Node };

    ghost view = { λ p. paged p.stack.full.items p.stack.last.items };

    ghost invariant = { λ p. ArePages p.stack.full.items p.stack.last.items p.count };
}

impl Pages {
    /// No nodes. It takes no memory.
    pub fn new(alloc: Global) -> Pages
        ensures { result ≡ [] }
    {
        let stack = PageStack {
            full: Vec::new(alloc),
            last: Vec::new(alloc),
            spare: Vec::new(alloc),
        };
        Pages { stack, count: 0 }
    }

    pub fn allocator(&self) -> Global {
        *self.stack.last.allocator()
    }

    pub fn len(&self) -> u64
        ensures { result ≡ length self.now }
    {
        self.count
    }

    /// The nth node, from 0.
    pub fn get(&self, n: u64) -> &Node
        requires { n < length self.now }
        ensures { slice_get self.now n ≡ Some result.now }
    {
        let n = n as usize;
        let page = n / PAGE;
        if page < self.stack.full.len() {
            &self.stack.full[page][n % PAGE]
        } else {
            &self.stack.last[n - self.stack.full.len() * PAGE]
        }
    }

    /// Adds a node at the end.
    pub fn push(&mut self, node: Node) -> Result<(), NodeBack>
        ensures ok { OnOk result (self.new ≡ self.old ++ node ∷ []) }
        ensures err { OnErr result (self.new ≡ self.old) }
        ensures back { IfErr result (λ back. back.node ≡ node) }
    {
        if self.count == u64::MAX {
            return Err(NodeBack { node });
        }
        if let Err(_) = self.stack.make_room() {
            return Err(NodeBack { node });
        }
        if let Err(failed) = self.stack.last.push(node) {
            return Err(NodeBack { node: failed.value });
        }
        self.count += 1;
        Ok(())
    }

    /// Gives up all nodes but the first `count`.
    pub fn truncate(&mut self, count: u64)
        requires { count ≤ length self.old }
        ensures { self.new ≡ take count self.old }
    {
        let within = count as usize / PAGE;
        while within < self.stack.full.len() {
            self.stack.pop_page();
        }
        let before = self.stack.full.len() * PAGE;
        self.stack.last.truncate(count as usize - before);
        self.count = count;
    }
}
