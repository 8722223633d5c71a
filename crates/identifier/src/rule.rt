//! The rule by which requests are named.

use http_wire::FieldName;
use name_tree::Path;

/// What a request is named by: which labels stand behind the prefix. The names of fields are
/// compared without the case of ASCII letters, and of several fields of one name the first counts.
#[derive(Drop)]
pub enum Kind {
    /// One label: the value of the first field of this name, as received. For the name `Host` it is
    /// the host of the request in place of that field's value, its ASCII letters in lower case.
    /// There is no path where the label would be empty, or the field is missing.
    Token(FieldName),
    /// Three labels: `1.1`, the method, and the host, its ASCII letters in lower case; there is no
    /// path where the host is empty. An HTTP/1.0 request, which may have no host, is always named
    /// by two: `1.0` and the method.
    MethodAndHost,
    /// So many labels, 0 among the numbers: the first pieces between the slashes of the path of the
    /// target that goes on, empty pieces passed over, the bytes as received. The query is no part
    /// of the path, and the target `*` has no pieces. There is no path where the pieces are fewer.
    Segments(u32),
    /// The labels of the path that the value of the first field of this name is the text of, blanks
    /// allowed round it. There is no path where the field is missing, or where
    /// [`read_path`](name_tree::read_path) refuses its value.
    PathField(FieldName),
    /// The labels of this path, for every request.
    Static(Path),
}

/// How a router names its requests, and whether it hears what they say of their context.
pub struct Rule {
    /// What stands behind the prefix.
    pub kind: Kind,
    /// What every path begins with.
    pub prefix: Path,
    /// Whether the fields `l5d-dtab` and `l5d-ctx-*` of a request are taken off its head before
    /// anything else is looked at, as for clients that are not trusted: by them a request says how
    /// it is to be routed.
    pub clears_context: bool,
}

impl Drop for Rule {
    fn drop(self) {
        let Rule {
            kind,
            prefix,
            clears_context: _,
        } = self;
        drop(kind);
        drop(prefix);
    }
}
