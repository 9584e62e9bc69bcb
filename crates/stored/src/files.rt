// Files by name and ending.
ghost use Rattle.std.specs.Prelude.{◌≤◌, IfSome, MatchResult, length};
ghost use Rattle.std.specs.Counts.{IsPrefixLen};

use crate::texts::put_text;
use std::io::Read;

// One read. One that fails brings nothing.
fn read_on<R: Read>(from: &mut R, into: &mut [u8]) -> usize
    ensures { result ≤ length into.new }
{
    from.read(into).unwrap_or(0)
}

// Read by read, until the buffer is full or a read brings nothing.
pub fn read_full<R: Read>(from: &mut R, into: &mut [u8]) -> usize
    ensures { IsPrefixLen result into.new }
{
    let mut done: usize = 0;
    while done < into.len() {
        let n = read_on(&mut *from, &mut into[done..]);
        if n == 0 {
            break;
        }
        done += n;
    }
    done
}

// How many octets a file has, which is named by a name and an ending behind it. Of a file that is not
// there, or is not shorter than the buffer, the error is how many of its octets stand at the front.
pub fn read_named(
    rt: HostRuntime,
    name: &[u8],
    ending: &[u8],
    into: &mut [u8],
) -> Result<usize, usize>
    ensures { MatchResult result (λ n. IsPrefixLen n into.new) (λ n. IsPrefixLen n into.new) }
{
    let mut path = [0u8; 4_096];
    let n = put_text(&mut path, 0, name);
    let end = put_text(&mut path, n, ending);
    let Some(mut file) = arguments::opened(rt, &path[..end]) else {
        return Err(0);
    };
    let size = read_full(&mut file, &mut *into);
    if size < into.len() {
        Ok(size)
    } else {
        Err(size)
    }
}

// The octets of a file, which is named by a name and an ending behind it. That it cannot be read is said.
pub fn named<'a>(
    rt: HostRuntime,
    name: &[u8],
    ending: &[u8],
    into: &'a mut [u8],
) -> Option<&'a [u8]>
    ensures { IfSome result (λ file. length file.now ≤ length into.old) }
{
    match read_named(rt, name, ending, &mut *into) {
        Ok(n) => Some(&into[..n]),
        Err(_) => {
            crate::say_unread(rt);
            None
        }
    }
}
