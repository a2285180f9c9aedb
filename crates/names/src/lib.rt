//! Names are compared without regard to the case of their letters. One search by name serves every table whose
//! entries have a name: keywords, declared names, components.
#![tactic(auto)]

ghost use Rattle.std.specs.Prelude.{◌≡◌, ℕ, List, map};
ghost use Rattle.names.specs.Spelling.{Says, SameName, FullName, alone, full, SameFullName, Last};

/// A name in full: the name of what it belongs to, which is empty where it belongs to nothing, and the name itself.
#[derive(Clone, Copy)]
pub struct Name<'n> {
    pub of: &'n [u8],
    pub own: &'n [u8],
}

impl<'n> Name<'n> {
    /// The name of what belongs to nothing.
    pub fn alone(own: &'n [u8]) -> Self
        ensures { full result ≡ alone own.now }
    {
        Self { of: &[], own }
    }
}

/// What has a name. The bytes that spell it stand in the entry itself, or in the context, as in a text.
pub trait Named<C> {
    ghost spelled: { C → Self → FullName };

    fn name<'n>(&'n self, context: &'n C) -> Name<'n>
        ensures { full result ≡ spelled context.now self.now };
}

/// Are the two spellings of one name?
pub fn same_name(a: &[u8], b: &[u8]) -> bool
    ensures { Says result (SameName a.now b.now) }
{
    // The slice's own `eq_ignore_ascii_case` was tried: a cut of many words took a third longer.
    a.len() == b.len() && a.iter().zip(b).all(|(x, y)| x.eq_ignore_ascii_case(y))
}

/// Are the two one name, of one thing?
fn same_full_name(a: Name, b: Name) -> bool
    ensures { Says result (SameFullName (full a.entry) (full b.entry)) }
{
    same_name(a.own, b.own) && same_name(a.of, b.of)
}

/// The number of the last entry that has the name wanted.
pub fn last<C, N: Named<C>>(entries: &[N], context: &C, wanted: Name) -> Option<usize>
    ensures { Last (map (N.Named.spelled context.now) entries.now) (full wanted.entry) result }
{
    entries
        .iter()
        .rposition(|e| same_full_name(e.name(context), wanted))
}
