//! Cuts the classes of a pattern to the letters, since a listener hears nothing else. Of the 750 ranges of `\w`, four are of
//! letters.
ghost use Rattle.std.specs.Prelude.{map, IfOk};
ghost use Rattle.regex_hir.specs.Meaning.{meaning};
ghost use Rattle.hub_listen.specs.Letters.{HasSameLetters, SameInLetters, AreSameInLetters};

use regex_class::Class;
use regex_hir::Hir;
use std::alloc::{AllocError, Global};

/// A pattern that matches texts of letters as this one does.
#[cycle(cut)]
pub(crate) fn cut(alloc: Global, hir: &Hir) -> Result<Hir, AllocError>
    ensures { IfOk result (λ new. SameInLetters (meaning new) (meaning hir.now)) }
{
    match hir {
        Hir::Empty => Ok(Hir::Empty),
        Hir::Literal(bytes) => Ok(Hir::Literal(Vec::from_slice(alloc, bytes)?)),
        Hir::Bytes(class) => Ok(Hir::Bytes(letters_of(alloc, class)?)),
        Hir::Chars(class) => Ok(Hir::Chars(letters_of(alloc, class)?)),
        Hir::Look(look) => Ok(Hir::Look(*look)),
        Hir::Repetition {
            min,
            max,
            greedy,
            sub,
        } => Ok(Hir::Repetition {
            min: *min,
            max: *max,
            greedy: *greedy,
            sub: Box::new(alloc, cut(alloc, sub)?)?,
        }),
        Hir::Capture { index, sub } => Ok(Hir::Capture {
            index: *index,
            sub: Box::new(alloc, cut(alloc, sub)?)?,
        }),
        Hir::Concat(subs) => Ok(Hir::Concat(cut_all(alloc, subs)?)),
        Hir::Alternation(subs) => Ok(Hir::Alternation(cut_all(alloc, subs)?)),
    }
}

#[cycle(cut)]
fn cut_all(alloc: Global, subs: &[Hir]) -> Result<Vec<Hir>, AllocError>
    ensures { IfOk result (λ new. AreSameInLetters (map meaning new.items) (map meaning subs.now)) }
{
    let mut all = Vec::with_capacity(alloc, subs.len())?;
    for i in 0..subs.len() {
        all.push(cut(alloc, &subs[i])?)?;
    }
    Ok(all)
}

/// The letters of a class.
fn letters_of(alloc: Global, class: &Class) -> Result<Class, AllocError>
    ensures { IfOk result (λ new. HasSameLetters new.ranges.items class.now.ranges.items) }
{
    let letters = Class::from_ranges(alloc, &[(0x21, 0x7E)])?;
    Ok(letters.intersection(class)?)
}
