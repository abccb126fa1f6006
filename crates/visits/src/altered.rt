// The card of a section, in the hands of somebody who alters it.
ghost use Rattle.std.specs.Prelude.{◌≡◌, min, IfOk};
ghost use Rattle.visits.specs.Stores.{words_of, state_of, altered_card};

use script::cells::Cells;
use std::alloc::{AllocError, Global};
use store::altering::Altering;
use store::array::Array;
use store_laws::Alteration;

// A card has at most 4,096 cells. Every larger size is equally unfit, so the next one stands for them all.
fn handed_size(size: u64) -> usize
    ensures { result ≡ min size 4097 }
{
    size.min(4097) as usize
}

// A word has at most 48 bits. Every larger width is equally unfit, so the largest that can be handed over stands for those that cannot.
fn handed_width(width: u64) -> u32
    ensures { result ≡ min width 4294967295 }
{
    u32::try_from(width).unwrap_or(u32::MAX)
}

// The words that the cells take.
pub(crate) fn words(heap: Global, cells: Cells) -> Result<Vec<u64>, AllocError>
    ensures { IfOk result (λ v. v.items ≡ words_of cells) }
{
    vec![in heap; 0; handed_size(cells.size)]
}

// The card over those words, with the alterations to come.
pub(crate) fn card<'w, 'a>(
    cells: Cells,
    words: &'w mut [u64],
    coming: &'a [Alteration],
) -> Altering<'a, Array<'w>>
    requires { words.old ≡ words_of cells }
    ensures { state_of result ≡ altered_card cells coming.now }
{
    let array = Array::new(words, handed_width(cells.width));
    Altering::new(array, coming)
}
