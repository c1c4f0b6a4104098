#![tactic(auto)]

// The version of the library, 0.4.4 (VERSION, include/tiedraw.h).
ghost use Rattle.std.specs.Prelude.{◌≡◌};
ghost use Rattle.version.specs.Version.{version_number};

const MAJOR: u32 = 0;

const MINOR: u32 = 4;

const PATCH: u32 = 4;

// As one number.
pub fn number() -> u32
    ensures { result ≡ version_number }
{
    MAJOR * 1000000 + MINOR * 1000 + PATCH
}
