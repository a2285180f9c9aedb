//! Names of a scope that stand behind one of the same word.
ghost use Rattle.std.specs.Prelude.{◌≡◌, map};
ghost use Rattle.statics.specs.JudgeLimits.{alike_in, doubles as doubles_of, least};
ghost use Rattle.texts.specs.Facts.{facts};

use crate::earlier;
use scopes::Declared;
use texts::Text;

/// The first of the names that is the same word as the name at `item`.
fn alike(text: Text<'_>, item: usize, names: &[Declared]) -> Option<usize>
    ensures { result ≡ least (alike_in (facts text.entry) item (map (λ d. d.item) names.now)) }
{
    let mut found = None;
    for name in names {
        if text.same_word(name.item, item) {
            found = earlier(found, Some(name.item));
        }
    }
    found
}

/// The first name that stands behind one of the same word.
pub fn doubled(text: Text<'_>, names: &[Declared]) -> Option<usize>
    ensures { result ≡ least (doubles_of (facts text.entry) (map (λ d. d.item) names.now)) }
{
    let mut found = None;
    let mut rest = names;
    while let Some((first, behind)) = rest.split_first() {
        found = earlier(found, alike(text, first.item, behind));
        rest = behind;
    }
    found
}
