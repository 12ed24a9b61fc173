ghost use Rattle.std.specs.Prelude.{◌≡◌, ◌+◌, ◌%◌, ◌<◌};
ghost use Rattle.cube_sample.specs.Sample.{following};

const MULTIPLIER: u64 = 48_271;

const MODULUS: u64 = 2_147_483_647;

/// Numbers that follow from one another, by the multiplier 48,271 modulo 2^31 - 1.
#[derive(Clone, Copy)]
pub(crate) struct Generator {
    pub(crate) last: u32,
}

impl Generator {
    /// The next number, brought into the range from 1 to `most`.
    pub(crate) fn up_to(&mut self, most: u32) -> u32
        requires { 0 < most }
        ensures drawn { self.new.last ≡ following self.old.last }
        ensures value { result ≡ 1 + following self.old.last % most }
    {
        self.last = (u64::from(self.last) * MULTIPLIER % MODULUS) as u32;
        1 + self.last % most
    }
}
