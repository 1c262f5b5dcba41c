// The growing text.
ghost use Rattle.std.specs.Prelude.{◌≡◌, ◌≤◌, length};

#[derive(Clone, Copy)]
pub struct Draft {
    // Kept: a buffer with its length, since an ArrayVec is not Copy, as drafts have been to all who use them, and an
    // ArrayString takes only text.
    pub(crate) bytes: [u8; 1024],
    // how many are written
    pub(crate) len: usize,
    ghost fits: { (len ≤ 1024) × (length bytes ≡ 1024) },
}
