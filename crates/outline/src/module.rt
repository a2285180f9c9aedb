//! The outline of a module that was read.

use lexer::table::item_of;
use nodes::Node;
use std::alloc::{AllocError, Global};
use std::io;
use std::io::Write;
use symbols::{Entry, Keyword, Separator, Symbol};

/// A module: its text, its items, and the nodes of its tree.
#[derive(Clone, Copy)]
pub struct Module<'t> {
    pub text: &'t [u8],
    pub items: &'t [Entry],
    pub nodes: &'t [Node],
}

impl<'t> Module<'t> {
    fn node(self, k: usize) -> Node {
        self.nodes.get(k).copied().unwrap_or(Node::Absent)
    }

    /// The last entry of a list, and the list in front of it.
    fn last(self, list: usize) -> (usize, Option<usize>) {
        match self.node(list) {
            Node::Also(front, entry) => (entry, Some(front)),
            Node::AlsoField(front, _) | Node::NextField(front, _, _) => (list, Some(front)),
            _ => (list, None),
        }
    }

    /// The nodes of the entries of a list, in their order.
    fn entries(self, heap: Global, list: usize) -> Result<Vec<usize>, AllocError> {
        let mut found = Vec::new(heap);
        let mut rest = Some(list);
        // no list is longer than the table of nodes
        for _ in self.nodes {
            let Some(at) = rest else {
                break;
            };
            let (entry, front) = self.last(at);
            found.push(entry)?;
            rest = front;
        }
        found.reverse();
        Ok(found)
    }

    /// How many parameters a procedure has.
    fn parameters(self, heap: Global, list: usize) -> Result<usize, AllocError> {
        match self.node(list) {
            Node::Absent => Ok(0),
            _ => Ok(self.entries(heap, list)?.len()),
        }
    }

    /// How many variables one declaration declares.
    fn declared(self, heap: Global, declaration: usize) -> Result<usize, AllocError> {
        let (Node::Variables(_, names)
        | Node::Arrays(_, _, _, names)
        | Node::Structures(_, names)) = self.node(declaration) else {
            return Ok(0);
        };
        let mut count = 0usize;
        for name in self.entries(heap, names)? {
            let sharing = match self.node(name) {
                Node::Given(shared, _) => self.entries(heap, shared)?.len(),
                _ => 1,
            };
            count = count.saturating_add(sharing);
        }
        Ok(count)
    }

    /// How many variables the declarations of a data brick declare.
    fn variables(self, heap: Global, declarations: usize) -> Result<usize, AllocError> {
        let mut count = 0usize;
        for declaration in self.entries(heap, declarations)? {
            count = count.saturating_add(self.declared(heap, declaration)?);
        }
        Ok(count)
    }

    /// The greatest depth that the items of this part of the module reach.
    fn depth(self, start: usize, end: usize) -> usize {
        let mut depth = 0usize;
        let mut greatest = 0;
        for entry in self.items.get(start..end).unwrap_or_default() {
            match entry.symbol {
                Symbol::Mark(Separator::LeftBracket)
                | Symbol::Word(Keyword::Block | Keyword::If | Keyword::Do) => {
                    depth = depth.saturating_add(1);
                    greatest = greatest.max(depth);
                }
                Symbol::Mark(Separator::RightBracket)
                | Symbol::Word(Keyword::EndBlock | Keyword::End | Keyword::Rep) => {
                    depth = depth.saturating_sub(1);
                }
                _ => {}
            }
        }
        greatest
    }

    /// The number of the first item of a module item; none of an empty one.
    fn first(self, moditem: usize) -> Option<usize> {
        let (name, before) = match self.node(moditem) {
            Node::ExternalProcs(bracket, _, _, _) => (bracket, 2),
            Node::ExternalStore(name, _) => (name, 2),
            Node::RecordMode(name, _, _) => (name, 1),
            Node::Own(brick) => (self.brick_name(brick)?, 1),
            Node::Ent(brick) => (self.brick_name(brick)?, 2),
            _ => return None,
        };
        name.checked_sub(before)
    }

    /// The number of the item that names a brick.
    fn brick_name(self, brick: usize) -> Option<usize> {
        match self.node(brick) {
            Node::Store(name, _) => Some(name),
            Node::Procedure(heading, _, _) => match self.node(heading) {
                Node::Heading(name, _, _, _) => Some(name),
                _ => None,
            },
            _ => None,
        }
    }

    /// Writes ` NAME`.
    fn show_name(self, out: &mut impl Write, item: usize) -> io::Result<()> {
        let Some(entry) = self.items.get(item) else {
            return Ok(());
        };
        out.write_all(b" ")?;
        out.write_all(item_of(self.text, *entry).bytes())
    }

    /// Writes `data NAME` or `proc NAME`, with ENT where the brick has it, and how many variables or parameters it has.
    fn show_brick(
        self,
        heap: Global,
        out: &mut impl Write,
        brick: usize,
        ent: &str,
    ) -> anyhow::Result<()> {
        match self.node(brick) {
            Node::Store(name, declarations) => {
                out.write_all(b"data")?;
                self.show_name(out, name)?;
                let variables = self.variables(heap, declarations)?;
                write!(out, "{ent} variables {variables}")?;
            }
            Node::Procedure(heading, _, _) => {
                if let Node::Heading(name, _, fields, _) = self.node(heading) {
                    out.write_all(b"proc")?;
                    self.show_name(out, name)?;
                    let parameters = self.parameters(heap, fields)?;
                    write!(out, "{ent} parameters {parameters}")?;
                }
            }
            _ => {}
        }
        Ok(())
    }

    /// Writes what a module item is.
    fn show_moditem(
        self,
        heap: Global,
        out: &mut impl Write,
        moditem: usize,
    ) -> anyhow::Result<()> {
        match self.node(moditem) {
            Node::ExternalProcs(_, _, _, names) => {
                out.write_all(b"ext")?;
                for name in self.entries(heap, names)? {
                    if let Node::Name(item) = self.node(name) {
                        self.show_name(out, item)?;
                    }
                }
            }
            Node::ExternalStore(name, _) => {
                out.write_all(b"ext")?;
                self.show_name(out, name)?;
            }
            Node::RecordMode(name, _, _) => {
                out.write_all(b"mode")?;
                self.show_name(out, name)?;
            }
            Node::Own(brick) => self.show_brick(heap, out, brick, "")?,
            Node::Ent(brick) => self.show_brick(heap, out, brick, " ent")?,
            _ => {}
        }
        Ok(())
    }

    /// Writes a line for each module item that is not empty: where it begins, what it is, and the greatest depth reached in it.
    pub fn show(self, heap: Global, out: &mut impl Write, root: usize) -> anyhow::Result<()> {
        let moditems = self.entries(heap, root)?;
        for (i, moditem) in moditems.iter().enumerate() {
            let Some(start) = self.first(*moditem) else {
                continue;
            };
            let behind = moditems.iter().skip(i + 1);
            let end = behind.filter_map(|later| self.first(*later)).next();
            if let Some(entry) = self.items.get(start) {
                let line = entry.start.line(self.text);
                let column = entry.start.column(self.text);
                write!(out, "{line}:{column}: ")?;
            }
            self.show_moditem(heap, out, *moditem)?;
            let depth = self.depth(start, end.unwrap_or(self.items.len()));
            write!(out, " depth {depth}\n")?;
        }
        Ok(())
    }
}
