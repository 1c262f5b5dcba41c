// The check of a frame for C.
ghost use Rattle.invoicing.specs.Exports.{Checked};

// 0 where the text is a frame, or the refusal's number. Kept: a number, for C.
#[unsafe(no_mangle)]
pub extern "C" fn makwirfa_frame_check(text: &[u8]) -> u32
    ensures { Checked text.now result }
{
    match frame_reader::read(text) {
        Ok(_) => 0,
        Err(refusal) => refusal.number(),
    }
}
