//! Responses of the interfaces, and their bytes.
ghost use Rattle.std.specs.Prelude.{◌≡◌, ◌++◌, if◌then◌else◌, [], ◌∷◌, codes, length, IfOk, OnOk};
ghost use Rattle.std.specs.Prelude.{None, Some, option_map, string_bytes};
ghost use Rattle.std.specs.Fmt.{decimal};
ghost use Rattle.http_wire.specs.Lines.{ended, line_of};
ghost use Rattle.api_wire.specs.Response.{allow_lines, bad_name, bytes_of, connection_lines};
ghost use Rattle.api_wire.specs.Response.{content_bytes, content_lines, media_text, no_path};
ghost use Rattle.api_wire.specs.Response.{not_allowed, plain, response_value, status_line};
ghost use Rattle.api_wire.specs.Response.{version_lines};

use crate::verb::Methods;
use crate::{Bytes, Mem};
use http::StatusCode;
use http_wire::{end_line, push_line};
use std::alloc::Global;

/// The media type of a body.
#[derive(Clone, Copy, Debug, PartialEq, Eq)]
pub enum Media {
    /// A word and a line feed, or lines.
    Plain,
    /// JSON.
    Json,
    /// The text of a table.
    Dtab,
    /// Metrics in the text format that Prometheus scrapes.
    Metrics,
}

impl Media {
    /// As the field `Content-Type` has it.
    pub fn text(self) -> &'static str
        ensures { result.now ≡ media_text self }
    {
        match self {
            Media::Plain => "text/plain",
            Media::Json => "application/json",
            Media::Dtab => "application/dtab",
            Media::Metrics => "text/plain; version=0.0.4; charset=utf-8",
        }
    }
}

/// A body and what it is.
pub struct Content {
    /// Its media type.
    pub media: Media,
    /// Its bytes.
    pub body: Bytes,
}

impl Drop for Content {
    fn drop(self) {
        let Content { media: _, body } = self;
        drop(body);
    }
}

/// What a request is answered. `response_value` is how contracts see it.
pub struct Response {
    /// The status.
    pub status: StatusCode,
    /// The version of the table, in the field `ETag`.
    pub version: Option<u64>,
    /// The methods of the path, in the field `Allow`.
    pub allow: Option<Methods>,
    /// The body, if there is one.
    pub content: Option<Content>,
}

impl Drop for Response {
    fn drop(self) {
        let Response {
            status: _,
            version: _,
            allow: _,
            content,
        } = self;
        drop(content);
    }
}

impl Response {
    /// A response without a body.
    pub fn empty(status: StatusCode, version: Option<u64>) -> Response
        ensures { response_value result ≡ record {
          status = status;
          version = version;
          allow = None;
          content = None;
        } }
    {
        Response {
            status,
            version,
            allow: None,
            content: None,
        }
    }

    /// A response with this body.
    pub fn of(status: StatusCode, version: Option<u64>, media: Media, body: Bytes) -> Response
        ensures { response_value result ≡ record {
          status = status;
          version = version;
          allow = None;
          content = Some (media, body.items);
        } }
    {
        Response {
            status,
            version,
            allow: None,
            content: Some(Content { media, body }),
        }
    }

    /// A response that says a word.
    pub fn word(
        alloc: Global,
        status: StatusCode,
        version: Option<u64>,
        word: &str,
    ) -> Mem<Response>
        ensures { IfOk result (λ response. response_value response
            ≡ plain status version word.now) }
    {
        let mut body = Vec::from_slice(alloc, word.as_bytes())?;
        body.push(b'\n')?;
        Ok(Response::of(status, version, Media::Plain, body))
    }

    /// The path is none of the interface.
    pub fn no_path(alloc: Global) -> Mem<Response>
        ensures { IfOk result (λ response. response_value response ≡ no_path) }
    {
        Response::word(alloc, StatusCode::NOT_FOUND, None, "path")
    }

    /// The path does not answer the method: it answers these.
    pub fn not_allowed(alloc: Global, methods: Methods) -> Mem<Response>
        ensures { IfOk result (λ response. response_value response ≡ not_allowed methods) }
    {
        let body = Vec::from_slice(alloc, b"method\n")?;
        Ok(Response {
            status: StatusCode::METHOD_NOT_ALLOWED,
            version: None,
            allow: Some(methods),
            content: Some(Content {
                media: Media::Plain,
                body,
            }),
        })
    }

    /// A name in the path is none.
    pub fn bad_name(alloc: Global) -> Mem<Response>
        ensures { IfOk result (λ response. response_value response ≡ bad_name) }
    {
        Response::word(alloc, StatusCode::BAD_REQUEST, None, "name")
    }

    /// The whole response. It says `Connection: close` where it is `closing`. Its body is left out
    /// where not `with_body`, as for a HEAD request, and the fields are then the same (RFC 9110
    /// section 9.3.2).
    pub fn bytes(&self, alloc: Global, closing: bool, with_body: bool) -> Mem<Bytes>
        ensures { IfOk result (λ bytes. bytes.items ≡ bytes_of (response_value self.now) closing
            with_body) }
    {
        let mut out = Vec::new(alloc);
        put_status_line(self.status, &mut out)?;
        put_version(self.version, &mut out)?;
        put_allow(self.allow, &mut out)?;
        put_content_fields(&self.content, &mut out)?;
        put_connection(closing, &mut out)?;
        end_line(&mut out)?;
        if with_body {
            put_content(&self.content, &mut out)?;
        }
        Ok(out)
    }
}

/// The status line.
fn put_status_line(status: StatusCode, out: &mut Bytes) -> Mem<()>
    ensures { OnOk result (out.new.items ≡ out.old.items ++ ended (status_line status ∷ [])) }
{
    let line = format!(in *out.allocator(); "HTTP/1.1 {status}")?;
    out.extend_from_slice(line.as_bytes())?;
    end_line(out)
}

/// The field `ETag`, where there is a version.
fn put_version(version: Option<u64>, out: &mut Bytes) -> Mem<()>
    ensures { OnOk result (out.new.items ≡ out.old.items ++ ended (version_lines version)) }
{
    let Some(version) = version else {
        return Ok(());
    };
    let quoted = format!(in *out.allocator(); "\"{version}\"")?;
    push_line(out, "ETag", quoted.as_bytes())
}

/// The field `Allow`, where the method is not allowed.
fn put_allow(allow: Option<Methods>, out: &mut Bytes) -> Mem<()>
    ensures { OnOk result (out.new.items ≡ out.old.items ++ ended (allow_lines allow)) }
{
    match allow {
        None => Ok(()),
        Some(methods) => push_line(out, "Allow", methods.text().as_bytes()),
    }
}

/// The fields that tell of the body, where there is one.
fn put_content_fields(content: &Option<Content>, out: &mut Bytes) -> Mem<()>
    ensures { OnOk result
        (out.new.items ≡ out.old.items
        ++ ended (content_lines (option_map (λ c. (c.media, c.body.items)) content.now))) }
{
    match content {
        None => Ok(()),
        Some(content) => put_fields_of(content, out),
    }
}

/// The fields that tell of a body.
fn put_fields_of(content: &Content, out: &mut Bytes) -> Mem<()>
    ensures { OnOk result
        (out.new.items ≡ out.old.items
        ++ ended (content_lines (Some (content.now.media, content.now.body.items)))) }
{
    push_line(out, "Content-Type", content.media.text().as_bytes())?;
    put_length(content.body.as_slice(), out)
}

/// The field that tells how long a body is.
fn put_length(body: &[u8], out: &mut Bytes) -> Mem<()>
    ensures { OnOk result
        (out.new.items ≡ out.old.items
        ++ ended (line_of (codes "Content-Length") (decimal (length body.now)) ∷ [])) }
{
    let length = body.len();
    let digits = format!(in *out.allocator(); "{length}")?;
    push_line(out, "Content-Length", digits.as_bytes())
}

/// The field `Connection`, where the connection closes.
fn put_connection(closing: bool, out: &mut Bytes) -> Mem<()>
    ensures { OnOk result (out.new.items ≡ out.old.items ++ ended (connection_lines closing)) }
{
    if closing {
        push_line(out, "Connection", b"close")?;
    }
    Ok(())
}

/// The body, where there is one.
fn put_content(content: &Option<Content>, out: &mut Bytes) -> Mem<()>
    ensures { OnOk result
        (out.new.items ≡ out.old.items
        ++ content_bytes (option_map (λ c. (c.media, c.body.items)) content.now)) }
{
    match content {
        None => Ok(()),
        Some(content) => out.extend_from_slice(content.body.as_slice()),
    }
}
