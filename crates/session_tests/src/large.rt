//! A request and its reply that are large: a hundred fields each, and a body of 1 MiB each.
use crate::played::play;
use crate::scene::{FIXED, Mem, Scene};
use crate::texts::{CLOSE, TO_WEB, VIA};
use http_wire::Ended::PeerEnded;
use std::alloc::Global;
use std::process::Abort;
use std::sync::Wait;
use std::test::Fail;

/// A request and its reply, and what goes on and back of them.
struct Exchanged {
    gives: String,
    reply: String,
    sent: String,
    written: String,
}

impl Drop for Exchanged {
    fn drop(self) {
        let Exchanged {
            gives,
            reply,
            sent,
            written,
        } = self;
        drop(gives);
        drop(reply);
        drop(sent);
        drop(written);
    }
}

impl Exchanged {
    /// Texts of nothing yet.
    fn new(alloc: Global) -> Exchanged {
        Exchanged {
            gives: String::new(alloc),
            reply: String::new(alloc),
            sent: String::new(alloc),
            written: String::new(alloc),
        }
    }

    /// Whether the request is passed on, and its reply passed back, as these texts say.
    fn passes<R: Wait + Abort>(&self, rt: &R, alloc: Global) -> Result<bool, Fail> {
        let replies = [self.reply.as_str()];
        let played = play(rt, alloc, &Scene::of(FIXED, self.gives.as_str(), &replies))?;
        let passes = played.seen() == (Some(PeerEnded), self.written.as_str(), self.sent.as_str());
        drop(played);
        Ok(passes)
    }
}

/// Puts texts behind another one.
fn put_parts(text: &mut String, parts: &[&str]) -> Mem<()> {
    for part in parts {
        text.push_str(part)?;
    }
    Ok(())
}

/// Puts a field behind a text.
fn put_field(alloc: Global, text: &mut String, place: u32) -> Mem<()> {
    let field = format!(in alloc; "X-Field-{place}: value of {place}|")?;
    let put = text.push_str(field.as_str());
    drop(field);
    put
}

/// Puts some texts, a hundred fields, and other texts behind a text.
fn put_among_fields(alloc: Global, text: &mut String, before: &[&str], behind: &[&str]) -> Mem<()> {
    put_parts(text, before)?;
    for place in 0..100u32 {
        put_field(alloc, text, place)?;
    }
    put_parts(text, behind)
}

/// Puts some texts, so many times a letter, and another text behind a text.
fn put_around_body(text: &mut String, before: &[&str], letter: char, behind: &str) -> Mem<()> {
    put_parts(text, before)?;
    for _ in 0..1048576u32 {
        text.push(letter)?;
    }
    text.push_str(behind)
}

/// The texts of a request of a hundred fields, whose reply has a hundred too.
fn put_fields(alloc: Global, texts: &mut Exchanged) -> Mem<()> {
    let (request, reply) = ("GET / HTTP/1.1|Host: web|", "HTTP/1.1 200 OK|");
    put_among_fields(alloc, &mut texts.gives, &[request], &["|"])?;
    put_among_fields(
        alloc,
        &mut texts.sent,
        &["<", request],
        &[TO_WEB, CLOSE, ">"],
    )?;
    put_among_fields(
        alloc,
        &mut texts.reply,
        &[reply],
        &["Content-Length: 2||hi"],
    )?;
    put_among_fields(
        alloc,
        &mut texts.written,
        &[reply],
        &["Content-Length: 2|", VIA, "hi"],
    )
}

#[test]
fn a_hundred_fields_go_on_and_back(rt: HostRuntime) -> Result<(), Fail> {
    let alloc = rt.alloc();
    let mut texts = Exchanged::new(alloc);
    put_fields(alloc, &mut texts)?;
    let passed = texts.passes(&rt, alloc);
    drop(texts);
    assert!(rt; passed?);
    Ok(())
}

/// The texts of a request with a body of 1 MiB, whose reply has one too.
fn put_bodies(texts: &mut Exchanged) -> Mem<()> {
    let request = "POST / HTTP/1.1|Host: web|Content-Length: 1048576|";
    let reply = "HTTP/1.1 200 OK|Content-Length: 1048576|";
    put_around_body(&mut texts.gives, &[request, "|"], 'a', "")?;
    put_around_body(&mut texts.sent, &["<", request, TO_WEB, CLOSE], 'a', ">")?;
    put_around_body(&mut texts.reply, &[reply, "|"], 'b', "")?;
    put_around_body(&mut texts.written, &[reply, VIA], 'b', "")
}

#[test]
fn a_mebibyte_goes_on_and_back(rt: HostRuntime) -> Result<(), Fail> {
    let alloc = rt.alloc();
    let mut texts = Exchanged::new(alloc);
    put_bodies(&mut texts)?;
    let passed = texts.passes(&rt, alloc);
    drop(texts);
    assert!(rt; passed?);
    Ok(())
}
