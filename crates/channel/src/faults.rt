// Who refused a send.

// The layer number of the channel that refused; each kind of channel has a fixed one. Who sends knows the session and
// the number that go with it. Kept: a number, since the kinds of channels are open and a report names them by it.
#[derive(Clone, Copy)]
pub struct Full {
    pub layer: u8,
}
