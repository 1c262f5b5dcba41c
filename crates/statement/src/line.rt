// The parts of a line, each pushed behind the draft's text. No line is longer than a draft: an id, two numbers and
// 16 stretches take fewer bytes. Kept: the room that a part needs stands in its contract, since each needs its own.
ghost use Rattle.std.specs.Prelude.{◌≡◌, ◌+◌, ◌*◌, ◌≤◌, ◌∷◌, ◌++◌, length, decimal};
ghost use Rattle.draft.specs.Growing.{most, text_in};
ghost use Rattle.statement.specs.Lines.{head, stretch_text, stretches_text};

use draft::Draft;
use ids::TransactionId;
use runs::Run;

// The letter of a line, a space and the transaction id. Kept: the writer of frames pushes an id by the same three calls;
// `ids` knows no drafts and `draft` no ids.
pub(crate) fn begin(letter: u8, id: TransactionId) -> Draft
    ensures text { text_in result ≡ head letter id }
    ensures long { length (text_in result) ≡ 16 }
{
    let mut line = Draft::new();
    line.push(letter);
    line.push(b' ');
    line.push_fixed(5, u64::from(id.station));
    line.push(b'-');
    line.push_fixed(8, u64::from(id.session));
    line
}

// A space and a number.
pub(crate) fn push_field(line: &mut Draft, number: u64)
    requires { length (text_in line.old) + 21 ≤ most }
    ensures text { text_in line.new ≡ text_in line.old ++ (32 ∷ decimal number) }
    ensures long { length (text_in line.new) ≤ length (text_in line.old) + 21 }
{
    line.push(b' ');
    line.push_plain(number);
}

// The first and the last number of a stretch.
fn push_stretch(line: &mut Draft, run: Run)
    requires { length (text_in line.old) + 41 ≤ most }
    ensures text { text_in line.new ≡ text_in line.old ++ stretch_text run }
    ensures long { length (text_in line.new) ≤ length (text_in line.old) + 41 }
{
    line.push_plain(u64::from(run.first));
    line.push(b'-');
    line.push_plain(u64::from(run.last));
}

// The stretches with commas between, or a hyphen where there is none.
pub(crate) fn push_stretches(line: &mut Draft, runs: &[Run])
    requires { length (text_in line.old) + 42 * length runs.now + 1 ≤ most }
    ensures text { text_in line.new ≡ text_in line.old ++ stretches_text runs.now }
    ensures long { length (text_in line.new) ≤ length (text_in line.old) + 42 * length runs.now + 1 }
{
    let [first, rest @ ..] = runs else {
        line.push(b'-');
        return;
    };
    push_stretch(line, *first);
    for run in rest {
        line.push(b',');
        push_stretch(line, *run);
    }
}
