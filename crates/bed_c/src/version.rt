// The exports of bed/src/version.rt: each calls the library's function, and its clauses are that function's.
ghost use Rattle.std.specs.Prelude.{◌≡◌};
ghost use Rattle.bed.specs.Version.{version};

#[unsafe(no_mangle)]
pub extern "C" fn bed_version() -> u32
    ensures { result ≡ version }
{
    bed::version::bed_version()
}
