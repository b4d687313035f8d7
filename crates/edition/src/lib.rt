// Which edition of the C entries this is.
#![tactic(auto)]

ghost use Rattle.std.specs.Prelude.{◌≡◌};
ghost use Rattle.edition.specs.Version.{version};

// The edition as one number: 1,000,000 times the major, 1,000 times the minor, and the patch.
pub fn edition() -> u64
    ensures { result ≡ version }
{
    2000
}
