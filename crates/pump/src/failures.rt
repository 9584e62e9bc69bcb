// What standard error is told of a system call that failed.
ghost use Rattle.std.specs.Prelude.{◌≡◌};
ghost use Rattle.capture.specs.Typing.{typed};
ghost use Rattle.pump.specs.Failures.{call_failed, failure_line};

use capture::{put_decimal, put_words};

#[tactic(auto, unfolding(capture::specs::Typing::typed))]
fn put_call(out: &mut [u8], at: usize, writing: bool) -> usize
    ensures { record { buffer = out.new; at = result } ≡ typed (record { buffer = out.old; at = at }) (call_failed writing) }
{
    if writing {
        put_words(out, at, b": write failed, errno ")
    } else {
        put_words(out, at, b": read failed, errno ")
    }
}

// The line of the program of that name, from the buffer's front on; how many octets it has.
#[tactic(auto, unfolding(capture::specs::Typing::typed, crate::specs::Failures::failure_line))]
pub fn put_failure(out: &mut [u8], name: &[u8], writing: bool, error: u64, number: u64) -> usize
    ensures { record { buffer = out.new; at = result } ≡ typed (record { buffer = out.old; at = 0 }) (failure_line name.now writing error number) }
{
    let a = put_words(&mut *out, 0, name);
    let b = put_call(&mut *out, a, writing);
    let c = put_decimal(&mut *out, b, error);
    let d = put_words(&mut *out, c, b", behind record ");
    let e = put_decimal(&mut *out, d, number);
    put_words(out, e, b"\n")
}
