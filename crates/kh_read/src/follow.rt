//! Code points in the midst of their bytes.
ghost use Rattle.std.specs.Prelude.{IsTrue, nat_le, nat_lt};
ghost use Rattle.kh_read.specs.Bounds.{follow_limit};

/// How many bytes come behind the next, its bounds, and the value so far.
#[derive(Clone, Copy)]
pub struct Follow {
    pub count: u32,
    pub low: u8,
    pub high: u8,
    pub value: u32,
    pub ghost fits: { IsTrue (nat_lt value (follow_limit count)) },
    pub ghost above: { IsTrue (nat_le 128 low) },
    pub ghost below: { IsTrue (nat_le high 191) },
}
