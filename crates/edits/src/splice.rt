// The list of numbers that an edit leaves, in memory of its own.
ghost use Rattle.std.specs.Prelude.{◌≡◌, ◌+◌, ◌*◌, ◌≤◌, length};
ghost use Rattle.scope.specs.Summary.{spliced};

// The list in which, at an index, the numbers `come` stand in place of `gone` windows; the room is lent to it.
#[tactic(auto, using(crate::proofs::EditLaws::spliced_copies))]
pub(crate) fn splice<'a>(
    list: &[u32],
    index: usize,
    gone: usize,
    come: &[u32],
    room: &'a mut [u32],
) -> &'a [u32]
    requires { (3 * (index + gone) ≤ length list.now) × (length list.now + length come.now ≤ length room.old) }
    ensures { result.now ≡ spliced index gone come.now list.now }
{
    let from = 3 * index;
    let rest = 3 * (index + gone);
    let last = from + come.len();
    let end = last + (list.len() - rest);
    room[..from].copy_from_slice(&list[..from]);
    room[from..last].copy_from_slice(come);
    room[last..end].copy_from_slice(&list[rest..]);
    &room[..end]
}
