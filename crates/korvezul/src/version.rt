// The version of the library, for a host to hold against the header that it was compiled with.
ghost use Rattle.std.specs.Prelude.{◌≡◌};
ghost use Rattle.korvezul.specs.Version.{version};

// 7.1.0: groups are set, asked of and reached by DHC messages.
pub fn korvezul_version() -> u32
    ensures { result ≡ version }
{
    459008
}
