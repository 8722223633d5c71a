//! Hosts and ports, as the labels of a path write them.
ghost use Rattle.std.specs.Prelude.{◌≡◌, ◌∷◌, ◌==◌, [], map};
ghost use Rattle.std.specs.List.{slice_split, position};
ghost use Rattle.std.specs.Option.{option_map_or};
ghost use Rattle.addr_book.specs.Addr.{host_value, ip_of_octets, octet_value, port_value};

use text_parts::read_number_to;

/// The host that stands for the machine itself.
const LOCALHOST: &[u8] = b"localhost";

/// 127.0.0.1, the address of [`LOCALHOST`].
const LOOPBACK: u32 = 0x7f00_0001;

/// The number of a host: `localhost`, which is 127.0.0.1, or four numbers from 0 to 255 without
/// leading zeros, with points between them. The first number is the highest eight bits. `None`
/// where the text is no host.
pub fn read_ip(text: &[u8]) -> Option<u32>
    ensures { result ≡ host_value text.now }
{
    if text == LOCALHOST {
        return Some(LOOPBACK);
    }
    read_octets(text)
}

/// A port: a number from 1 to 65535 without leading zeros. `None` where the text is no port.
pub fn read_port(text: &[u8]) -> Option<u16>
    ensures { result ≡ port_value text.now }
{
    match read_number_to(text, 65_535) {
        Some(0) | None => None,
        Some(port) => Some(port as u16),
    }
}

/// Four octets with points between them, the first the highest.
fn read_octets(text: &[u8]) -> Option<u32>
    ensures { result ≡ ip_of_octets (map octet_value (slice_split (λ b. b == 46) text.now)) }
{
    let (first, rest) = cut_at_point(text);
    let Some(rest) = rest else {
        return None;
    };
    let (second, rest) = cut_at_point(rest);
    let Some(rest) = rest else {
        return None;
    };
    let (third, rest) = cut_at_point(rest);
    let Some(rest) = rest else {
        return None;
    };
    let (fourth, rest) = cut_at_point(rest);
    if rest.is_some() {
        return None;
    }
    joined_octets(
        read_octet(first),
        read_octet(second),
        read_octet(third),
        read_octet(fourth),
    )
}

/// The number of an address, where each of its parts is one.
fn joined_octets(
    first: Option<u8>,
    second: Option<u8>,
    third: Option<u8>,
    fourth: Option<u8>,
) -> Option<u32>
    ensures { result ≡ ip_of_octets (first ∷ second ∷ third ∷ fourth ∷ []) }
{
    let (Some(first), Some(second), Some(third), Some(fourth)) = (first, second, third, fourth)
    else {
        return None;
    };
    let high = u32::from(first) * 256 + u32::from(second);
    let low = u32::from(third) * 256 + u32::from(fourth);
    Some(high * 65536 + low)
}

/// A part of an address: a number from 0 to 255 without leading zeros.
fn read_octet(text: &[u8]) -> Option<u8>
    ensures { result ≡ octet_value text.now }
{
    match read_number_to(text, 255) {
        Some(octet) => Some(octet as u8),
        None => None,
    }
}

/// What stands before the first point, and what stands behind it, if there is one.
fn cut_at_point(text: &[u8]) -> (&[u8], Option<&[u8]>)
    ensures { slice_split (λ b. b == 46) text.now
        ≡ result.0.now ∷ option_map_or (λ rest. slice_split (λ b. b == 46) rest.now) result.1 [] }
{
    match first_point(text) {
        Some(at) => (&text[..at], Some(&text[at + 1..])),
        None => (text, None),
    }
}

/// Where the first point is.
fn first_point(text: &[u8]) -> Option<usize>
    ensures { result ≡ position (λ b. b == 46) text.now }
{
    text.iter().position(|byte| *byte == b'.')
}
