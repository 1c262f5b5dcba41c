// Writing a frame to a buffer.
ghost use Rattle.frame_writer.specs.Writing.{Writes};

use crate::pieces::frame;
use event::Transmission;
use refusal::Refusal;

// Writes the frame to the beginning of the buffer and tells its length; 1 for an unlawful transmission, 60 for a buffer
// that is too short, and then nothing is written.
pub fn write(transmission: Transmission, out: &mut [u8]) -> Result<usize, Refusal>
    ensures { Writes transmission out.old result out.new }
{
    if !transmission.is_lawful() {
        return Err(Refusal::OutOfRange);
    }
    let stamp = calendar::write(transmission.event.time)?;
    let draft = frame(transmission, &stamp);
    let size = draft.len();
    if size > out.len() {
        return Err(Refusal::BufferTooSmall);
    }
    out[0..size].copy_from_slice(draft.text());
    Ok(size)
}
