//! What is asked for in batches.

ghost use Rattle.std.specs.Prelude.{◌≡◌, drop};
ghost use Rattle.load_batches.specs.Batches as spec;

/// How many keys one select has at most.
const BATCH: usize = 500;

/// The items from a place on; none where the list ends before it.
pub(crate) fn rest_from<T>(items: &[T], start: usize) -> &[T]
    ensures { result.now ≡ drop start items.now }
{
    &items[start.min(items.len())..]
}

/// The batch that begins at a place.
pub fn batch_at<T>(items: &[T], start: usize) -> &[T]
    ensures { result.now ≡ spec.batch_at items.now start }
{
    let rest = rest_from(items, start);
    &rest[..BATCH.min(rest.len())]
}
