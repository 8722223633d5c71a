//! The lines of the text format (Prometheus, text format 0.0.4).
ghost use Rattle.std.specs.Prelude.{◌≡◌, ◌++◌, OnOk};
ghost use Rattle.std.specs.Fmt.{decimal};
ghost use Rattle.std.specs.List.{flat_map};
ghost use Rattle.metrics_text.specs.Format.{comment_line, escaped, escaped_byte, head_lines};
ghost use Rattle.metrics_text.specs.Format.{kind_text, labelled_line, single_text, value_line};

use crate::{Bytes, Mem};
use itoa::Buffer;

/// The type of a metric.
#[derive(Clone, Copy)]
pub(crate) enum Kind {
    /// A number that only grows.
    Counter,
    /// A number that goes up and down.
    Gauge,
    /// Numbers of values by buckets.
    Histogram,
}

impl Kind {
    /// As the format names it.
    fn text(self) -> &'static str
        ensures { result.now ≡ kind_text self }
    {
        match self {
            Kind::Counter => "counter",
            Kind::Gauge => "gauge",
            Kind::Histogram => "histogram",
        }
    }
}

/// Puts the lines after some bytes that tell what a metric is. The help is a line without a
/// backslash. An `Err` may leave a part of it there, here and below.
#[tactic(auto, unfolding(crate::specs::Format::head_lines))]
pub(crate) fn put_head(name: &str, kind: Kind, help: &str, out: &mut Bytes) -> Mem<()>
    ensures { OnOk result (out.new.items ≡ out.old.items ++ head_lines name.now kind help.now) }
{
    put_comment(b"# HELP ", name, help.as_bytes(), out)?;
    put_comment(b"# TYPE ", name, kind.text().as_bytes(), out)?;
    Ok(())
}

/// Puts a line after some bytes that says something of a metric, behind this mark.
fn put_comment(mark: &[u8], name: &str, text: &[u8], out: &mut Bytes) -> Mem<()>
    ensures { OnOk result
        (out.new.items ≡ out.old.items ++ comment_line mark.now name.now text.now) }
{
    out.extend_from_slice(mark)?;
    out.extend_from_slice(name.as_bytes())?;
    out.push(b' ')?;
    out.extend_from_slice(text)?;
    out.push(b'\n')?;
    Ok(())
}

/// Puts a metric with one sample and no label after some bytes.
#[tactic(auto, unfolding(crate::specs::Format::single_text))]
pub(crate) fn put_single(name: &str, kind: Kind, help: &str, value: u64, out: &mut Bytes) -> Mem<()>
    ensures { OnOk result (out.new.items
        ≡ out.old.items ++ single_text name.now kind help.now value) }
{
    put_head(name, kind, help, out)?;
    out.extend_from_slice(name.as_bytes())?;
    put_value(u128::from(value), out)
}

/// Puts a sample with one label after some bytes.
#[tactic(auto, unfolding(crate::specs::Format::labelled_line))]
pub(crate) fn put_labelled(
    name: &str,
    label: &str,
    text: &[u8],
    value: u128,
    out: &mut Bytes,
) -> Mem<()>
    ensures { OnOk result (out.new.items
        ≡ out.old.items ++ labelled_line name.now label.now text.now value) }
{
    out.extend_from_slice(name.as_bytes())?;
    out.push(b'{')?;
    out.extend_from_slice(label.as_bytes())?;
    out.extend_from_slice(b"=\"")?;
    put_escaped(text, out)?;
    out.extend_from_slice(b"\"}")?;
    put_value(value, out)
}

/// Puts the value of a sample after its name and its labels.
pub(crate) fn put_value(value: u128, out: &mut Bytes) -> Mem<()>
    ensures { OnOk result (out.new.items ≡ out.old.items ++ value_line (decimal value)) }
{
    out.push(b' ')?;
    out.extend_from_slice(Buffer::new().format(value).as_bytes())?;
    out.push(b'\n')?;
    Ok(())
}

/// Puts a label's value after some bytes.
fn put_escaped(text: &[u8], out: &mut Bytes) -> Mem<()>
    ensures { OnOk result (out.new.items ≡ out.old.items ++ escaped text.now) }
{
    for byte in text {
        put_byte(*byte, out)?;
    }
    Ok(())
}

/// Puts a byte of a label's value after some bytes.
fn put_byte(byte: u8, out: &mut Bytes) -> Mem<()>
    ensures { OnOk result (out.new.items ≡ out.old.items ++ escaped_byte byte) }
{
    match byte {
        b'\\' => out.extend_from_slice(b"\\\\"),
        b'"' => out.extend_from_slice(b"\\\""),
        b'\n' => out.extend_from_slice(b"\\n"),
        _ => {
            out.push(byte)?;
            Ok(())
        }
    }
}
