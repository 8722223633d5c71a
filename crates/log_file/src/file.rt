//! A file that lines are appended to.
ghost use Rattle.std.specs.Prelude.{◌≡◌, ◌≤◌, length};

use std::fs::OpenOptions;
use std::io::Write;
use std::rt::Files;

/// After how many milliseconds the path is opened anew.
const RENEWED_AFTER: u64 = 1_000;

/// The file at a path, opened for appending, and opened anew a second later.
#[derive(Drop)]
pub(crate) struct AppendedFile<'a, R: Files> {
    rt: &'a R,
    path: String,
    file: Option<R::File>,
    /// When the path was last opened, or could not be.
    tried: Option<u64>,
    /// Whether the last line was cut off.
    torn: bool,
}

/// Whether the path is to be opened at a moment, by when it last was. A clock that went back shows
/// nothing of that, so it is opened then too.
fn is_due(tried: Option<u64>, moment: u64) -> bool {
    match tried {
        Some(tried) => moment < tried || moment - tried >= RENEWED_AFTER,
        None => true,
    }
}

/// Writes bytes, or a prefix of them where a call fails, and gives how many were written.
fn write_prefix<W: Write>(out: &mut W, bytes: &[u8]) -> usize
    ensures { result ≤ length bytes.now }
{
    let mut at = 0;
    while at < bytes.len() {
        match out.write(&bytes[at..]) {
            Ok(count) if count > 0 => at += count,
            _ => return at,
        }
    }
    at
}

impl<'a, R: Files> AppendedFile<'a, R> {
    /// The file at this path, which is opened at the first line.
    pub(crate) fn at(rt: &'a R, path: String) -> AppendedFile<'a, R>
        ensures { result.path ≡ path }
    {
        AppendedFile {
            rt,
            path,
            file: None,
            tried: None,
            torn: false,
        }
    }

    /// Opens the path, where that is due. Where it can't be opened, a file that is open stays.
    fn renew(&mut self, moment: u64)
        ensures { self.new.path ≡ self.old.path }
    {
        if !is_due(self.tried, moment) {
            return;
        }
        self.tried = Some(moment);
        let mut how = OpenOptions::new();
        how.append(true).create(true);
        if let Ok(file) = how.open(self.rt, self.path.as_str()) {
            self.file = Some(file);
        }
    }

    /// Appends a line, and says whether it was written whole. One that is cut off is ended by the
    /// next, so that it spoils no other.
    pub(crate) fn append(&mut self, line: &[u8], moment: u64) -> bool
        ensures { self.new.path ≡ self.old.path }
    {
        self.renew(moment);
        let Some(file) = &mut self.file else {
            return false;
        };
        if self.torn {
            if write_prefix(file, b"\n") == 0 {
                return false;
            }
            self.torn = false;
        }
        let count = write_prefix(file, line);
        self.torn = count > 0 && count < line.len();
        count == line.len()
    }
}
