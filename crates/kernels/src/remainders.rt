// The remainder by BCNS's q, 2^32 - 1.
ghost use Rattle.std.specs.Prelude.{◌≡◌, ◌%◌};

#[unsafe(no_mangle)]
pub extern "C" fn numbers_fold(x: u64) -> u64
    ensures { result ≡ x % 4294967295 }
{
    numbers::fold(x)
}
