//! Why packs cannot call an instance.

ghost use Rattle.std.specs.Prelude.{◌≡◌};
ghost use Rattle.vg_lanes.specs.Cause.{cause_name};

/// Why packs cannot call an instance. The causes are looked for in this order.
#[derive(Clone, Copy)]
pub enum Cause {
    /// A slice or a shift of the instance depends on data.
    Dynamic,
    /// The term of a lane has more than 1,024 nodes.
    TooLarge,
    /// A leaf has another width than 8, 16, 32 or 64 bits, or stands at no multiple of its width.
    OddLeaf,
    /// Two leaves of one parameter overlap without being equal.
    MixedInput,
}

impl Cause {
    /// Its name in ASCII, as it is printed.
    pub fn name(self) -> &'static [u8]
        ensures { result.now ≡ cause_name self }
    {
        match self {
            Cause::Dynamic => b"Dynamic",
            Cause::TooLarge => b"TooLarge",
            Cause::OddLeaf => b"OddLeaf",
            Cause::MixedInput => b"MixedInput",
        }
    }
}
