// Whole files.
ghost use Rattle.std.specs.Prelude.{◌≤◌, IfOk, vec_len};
ghost use Rattle.std.specs.Io.{ReadsAtMost};

use std::io::Read;
use std::rt::Files;
use std::{fs, io};

// No file of vectors is longer: what stands after so many octets is not read.
const LONGEST: usize = 400000;

// Reads until `out` is full or the input ends, and answers how many octets it put at the start of `out`.
pub fn read_full<R: Read>(reader: &mut R, out: &mut [u8]) -> io::Result<usize>
    ensures { ReadsAtMost result out.new }
{
    let mut done = 0;
    while done < out.len() {
        let n = reader.read(&mut out[done..])?;
        if n == 0 {
            break;
        }
        done += n;
    }
    Ok(done)
}

// Puts what the file of that path has; one that cannot be opened is said to standard error.
fn load_from<R: Files + Eprint>(rt: &R, path: &str, out: &mut [u8]) -> io::Result<usize>
    ensures { ReadsAtMost result out.new }
{
    match fs::open(rt, path) {
        Ok(mut file) => read_full(&mut file, out),
        Err(error) => {
            eprintln!(rt; "{path}: {error}")?;
            Ok(0)
        }
    }
}

// Puts what the file has, and answers how much that is: nothing where it cannot be opened, which is then said to standard error. No path
// that is not text can be.
pub fn load<R: Files + Eprint>(rt: &R, name: &[u8], out: &mut [u8]) -> io::Result<usize>
    ensures { ReadsAtMost result out.new }
{
    match str::from_utf8(name) {
        Ok(path) => load_from(rt, path, out),
        Err(error) => {
            eprintln!(rt; "a file's name: {error}")?;
            Ok(0)
        }
    }
}

// What the file has, by `load`.
pub fn read_file<R: Files + Eprint + AllocGlobal>(rt: &R, name: &str) -> io::Result<Vec<u8>>
    ensures { IfOk result (λ v. vec_len v ≤ 400000) }
{
    let mut text = Vec::new(rt.alloc());
    text.resize(LONGEST, 0)?;
    let n = load(rt, name.as_bytes(), &mut text)?;
    text.truncate(n);
    Ok(text)
}
