// The words of a frame.
ghost use Rattle.std.specs.Prelude.{◌≡◌, ◌≤◌, length};
ghost use Rattle.frame_reader.specs.Frame.{flag};
ghost use Rattle.frame_writer.specs.Compact.{compact};

// Kept: drafts take bytes, and the `Display` of a bool goes through a formatter.
pub(crate) fn flag_word(offline: bool) -> &'static [u8]
    ensures text { result.now ≡ compact (flag offline) }
    ensures long { length result.now ≤ 5 }
{
    if offline { b"true" } else { b"false" }
}
