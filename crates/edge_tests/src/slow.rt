//! Those who read slowly what is sent to them.
use crate::bytes::are_from;
use std::io::{Read, Write};
use std::net::{TcpListener, TcpStream};
use std::time::Duration;
use std::{rt, thread};

/// Reads to the end, a little at a time, from this place on, and gives the place of the end; 0
/// where a read fails, or where these are not the bytes that were sent.
pub(crate) fn end_place<R: rt::Clock>(rt: &R, stream: &mut TcpStream, from: usize) -> usize {
    let mut piece = [0u8; 16_384];
    let mut place = from;
    for _ in 0..100_000 {
        let Ok(count) = stream.read(&mut piece) else {
            return 0;
        };
        if count == 0 {
            return place;
        }
        if !are_from(&piece[..count], place) {
            return 0;
        }
        place = place.saturating_add(count);
        thread::sleep(rt, Duration::from_millis(1));
    }
    0
}

/// Answers a client behind the first of its bytes, and reads slowly what it says. Gives how many
/// bytes came as they were sent.
pub(crate) fn answer_early<R: rt::Clock>(rt: &R, replica: &TcpListener) -> usize {
    let Ok((mut stream, _)) = replica.accept() else {
        return 0;
    };
    let mut first = [0u8; 16];
    let Ok(count) = stream.read(&mut first) else {
        return 0;
    };
    let _ = stream.write(b"early");
    if !are_from(&first[..count], 0) {
        return 0;
    }
    end_place(rt, &mut stream, count)
}
