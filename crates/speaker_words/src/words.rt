//! The words of the command line.
ghost use Rattle.std.specs.Prelude.{◌≡◌, IfSome, IfNone, string_bytes};
ghost use Rattle.std.specs.List.{list_any, position, before_first, after_first};
ghost use Rattle.std.specs.Str.{bytes_eq};
ghost use Rattle.std.specs.Option.{option_map};
ghost use Rattle.command_options.specs.Lanes.{lane_seen};
ghost use Rattle.command_options.specs.Options.{texts_of};
ghost use Rattle.speaker_words.specs.Words.{Say, AreKnown};
ghost use Rattle.speaker_words.specs.Reading.{said_in, Given, with_option, with_node, with_class};
ghost use Rattle.speaker_words.specs.Reading.{with_interface, with_one};
ghost use Rattle.speaker_words.specs.Reading.{with_next_hop, with_next_hop_v6, next_hop_of};
ghost use Rattle.speaker_words.specs.Reading.{hops_stand, responder_stands, with_watch, with_frame};
ghost use Rattle.speaker_words.specs.Reading.{finished, is_flag};
ghost use Rattle.speaker_words.specs.Seen.{interface_seen, interfaces_seen, given_seen, said_seen};

use crate::interface::{InterfaceWord, interface_of};
use arrayvec::ArrayVec;
use command_options::{GivenLanes, LaneFiles, TakesOptions, lane_files, once_text, taken_options};
use ip_ranges::{Address, Family, parse_address};

const NODE_OPTION: &str = "--node-name";

const CLASS_OPTION: &str = "--lb-class";

const INTERFACE_OPTION: &str = "--interface";

const NEXT_HOP_OPTION: &str = "--next-hop";

const NEXT_HOP_V6_OPTION: &str = "--next-hop-v6";

const WATCH_OPTION: &str = "--watch-lane";

const FRAME_OPTION: &str = "--frame-lane";

const RESPONDER_FLAG: &str = "--responder";

/// The interfaces that words name, 16 at most.
pub type InterfaceWords<'a> = ArrayVec<InterfaceWord<'a>, 16>;

/// What the words of a speaker say.
#[derive(Drop)]
pub struct SpeakerWords<'a> {
    /// The name of the node that the speaker runs on: a text that isn't empty.
    pub node: &'a str,
    /// The class of the services that it announces, a text that isn't empty; with none, those that
    /// name none.
    pub class: Option<&'a str>,
    /// The interfaces that it answers on, as they stand in the words: 16 at most, of distinct
    /// names.
    pub interfaces: InterfaceWords<'a>,
    /// The IPv4 address that its routes lead to (RFC 4271, section 5.1.3); with none, it tells no
    /// routes.
    pub next_hop: Option<Address>,
    /// The IPv6 address that its IPv6 routes lead to (RFC 2545, section 3), only beside one of
    /// IPv4; with none, it tells no IPv6 routes.
    pub next_hop_v6: Option<Address>,
    /// The files of the watched objects and of the received frames; with none, all comes by one
    /// stream.
    pub lanes: Option<LaneFiles<'a>>,
    /// Frames are answered on a thread of their own, by a view that is published; only beside two
    /// lanes.
    pub responder: bool,
}

/// What options said so far.
#[derive(Drop)]
struct SaidSoFar<'a> {
    node: Option<&'a str>,
    class: Option<&'a str>,
    interfaces: InterfaceWords<'a>,
    next_hop: Option<Address>,
    next_hop_v6: Option<Address>,
    lanes: GivenLanes<'a>,
}

/// What the words say, where they are of the speaker's table.
///
/// The table: `--node-name NODE` once; `--lb-class CLASS` and `--next-hop ADDRESS` at most once,
/// the address an IPv4 one in dotted decimal without leading zeros; `--next-hop-v6 ADDRESS` at most
/// once, an IPv6 address in the text of RFC 4291, section 2.2, which isn't a mapped IPv4 one, and
/// only beside `--next-hop`; `--interface NAME=MAC` up to 16 times, split at the first `=`, with
/// distinct names, of which one may be empty, and with six octets of two hexadecimal digits of
/// either case and `:` between them; `--watch-lane FILE` and `--frame-lane FILE` once each, of
/// distinct names, or neither; the word `--responder` at most once, ahead of an option or after the
/// last, and only beside these two. Each option is one word with `=`, or two. `None` where the
/// words aren't of the table. It takes no memory.
pub fn speaker_words(words: &[String]) -> Option<SpeakerWords<'_>>
    ensures value { option_map said_seen result ≡ said_in (texts_of words.now) }

    // What is said is what the words say, and nothing is where they aren't of the table.
    ensures said { IfSome result (λ said. Say (texts_of words.now) (said_seen said)) }
    ensures unknown { IfNone result (¬ (AreKnown (texts_of words.now))) }
{
    read_words(words)
}

fn read_words(words: &[String]) -> Option<SpeakerWords<'_>>
    ensures { option_map said_seen result ≡ said_in (texts_of words.now) }
{
    let nothing = SaidSoFar {
        node: None,
        class: None,
        interfaces: ArrayVec::new(),
        next_hop: None,
        next_hop_v6: None,
        lanes: GivenLanes::new(),
    };
    let (ahead, behind, responder) = split_at_flag(words);
    let given = taken_options(ahead, nothing)?;
    finished(taken_options(behind, given)?, responder)
}

/// The words ahead of the first flag and those after it, and whether it is there; all are ahead
/// where it isn't.
fn split_at_flag(words: &[String]) -> (&[String], &[String], bool)
    ensures ahead { texts_of result.0.now ≡ before_first is_flag (texts_of words.now) }
    ensures behind { texts_of result.1.now ≡ after_first is_flag (texts_of words.now) }
    ensures is_there { result.2 ≡ list_any is_flag (texts_of words.now) }
{
    match flag_place(words) {
        Some(at) => (&words[..at], &words[at + 1..], true),
        None => (words, &[], false),
    }
}

/// Where the first flag stands.
fn flag_place(words: &[String]) -> Option<usize>
    ensures { result ≡ position (λ word. is_flag (string_bytes word)) words.now }
{
    words.iter().position(|word| is_flag(word))
}

fn is_flag(word: &String) -> bool
    ensures { result ≡ is_flag (string_bytes word.now) }
{
    word.as_str() == RESPONDER_FLAG
}

impl<'a> TakesOptions<'a> for SaidSoFar<'a> {
    ghost Said = { Given };

    ghost said = { given_seen };

    ghost step = { with_option };

    /// The option is given too; each but `--interface` stands at most once.
    fn with_option(self, name: &'a str, value: &'a str) -> Option<Self> {
        match name {
            NODE_OPTION => with_node(self, value),
            CLASS_OPTION => with_class(self, value),
            INTERFACE_OPTION => with_interface(self, value),
            NEXT_HOP_OPTION => with_next_hop(self, value),
            NEXT_HOP_V6_OPTION => with_next_hop_v6(self, value),
            WATCH_OPTION => with_watch(self, value),
            FRAME_OPTION => with_frame(self, value),
            _ => None,
        }
    }
}

fn with_node<'a>(given: SaidSoFar<'a>, value: &'a str) -> Option<SaidSoFar<'a>>
    ensures { option_map given_seen result ≡ with_node value.now (given_seen given.entry) }
{
    Some(SaidSoFar {
        node: Some(once_text(given.node, value)?),
        ..given
    })
}

fn with_class<'a>(given: SaidSoFar<'a>, value: &'a str) -> Option<SaidSoFar<'a>>
    ensures { option_map given_seen result ≡ with_class value.now (given_seen given.entry) }
{
    Some(SaidSoFar {
        class: Some(once_text(given.class, value)?),
        ..given
    })
}

fn with_interface<'a>(given: SaidSoFar<'a>, value: &'a str) -> Option<SaidSoFar<'a>>
    ensures { option_map given_seen result ≡ with_interface value.now (given_seen given.entry) }
{
    let interface = interface_of(value)?;
    let interfaces = with_one(given.interfaces, interface)?;
    Some(SaidSoFar {
        node: given.node,
        class: given.class,
        interfaces,
        next_hop: given.next_hop,
        next_hop_v6: given.next_hop_v6,
        lanes: given.lanes,
    })
}

/// The interfaces with one more, where there is room for it and none has its name.
fn with_one<'a>(
    interfaces: InterfaceWords<'a>,
    interface: InterfaceWord<'a>,
) -> Option<InterfaceWords<'a>>
    ensures { option_map interfaces_seen result
        ≡ with_one (interfaces_seen interfaces.entry) (interface_seen interface.entry) }
{
    let mut interfaces = interfaces;
    if interfaces.is_full() || is_named(interfaces.as_slice(), interface.name) {
        return None;
    }
    interfaces.push(interface);
    Some(interfaces)
}

/// Whether one of the interfaces has the name.
fn is_named(interfaces: &[InterfaceWord<'_>], name: &str) -> bool
    ensures { result ≡ list_any (λ i. bytes_eq i.name.now name.now) interfaces.now }
{
    interfaces.iter().any(|interface| interface.name == name)
}

fn with_next_hop<'a>(given: SaidSoFar<'a>, value: &str) -> Option<SaidSoFar<'a>>
    ensures { option_map given_seen result ≡ with_next_hop value.now (given_seen given.entry) }
{
    match given.next_hop {
        Some(_) => None,
        None => Some(SaidSoFar {
            next_hop: Some(next_hop_of(Family::V4, value)?),
            ..given
        }),
    }
}

fn with_next_hop_v6<'a>(given: SaidSoFar<'a>, value: &'a str) -> Option<SaidSoFar<'a>>
    ensures { option_map given_seen result ≡ with_next_hop_v6 value.now (given_seen given.entry) }
{
    match given.next_hop_v6 {
        Some(_) => None,
        None => Some(SaidSoFar {
            next_hop_v6: Some(next_hop_of(Family::V6, value)?),
            ..given
        }),
    }
}

/// The address of the family that the text writes.
fn next_hop_of(family: Family, text: &str) -> Option<Address>
    ensures { result ≡ next_hop_of family text.now }
{
    match parse_address(text) {
        Ok(address) if address.family == family => Some(address),
        _ => None,
    }
}

fn with_watch<'a>(given: SaidSoFar<'a>, value: &'a str) -> Option<SaidSoFar<'a>>
    ensures { option_map given_seen result ≡ with_watch value.now (given_seen given.entry) }
{
    Some(SaidSoFar {
        lanes: given.lanes.with_first(value)?,
        ..given
    })
}

fn with_frame<'a>(given: SaidSoFar<'a>, value: &'a str) -> Option<SaidSoFar<'a>>
    ensures { option_map given_seen result ≡ with_frame value.now (given_seen given.entry) }
{
    Some(SaidSoFar {
        lanes: given.lanes.with_second(value)?,
        ..given
    })
}

/// Whether one of IPv6 stands beside one of IPv4, if it is there.
fn hops_stand(next_hop: Option<Address>, next_hop_v6: Option<Address>) -> bool
    ensures { result ≡ hops_stand next_hop next_hop_v6 }
{
    next_hop.is_some() || next_hop_v6.is_none()
}

/// Whether a responder stands beside two lanes, if it is asked for.
fn responder_stands(responder: bool, lanes: Option<LaneFiles<'_>>) -> bool
    ensures { result ≡ responder_stands responder (option_map lane_seen lanes.entry) }
{
    !responder || lanes.is_some()
}

fn finished(given: SaidSoFar<'_>, responder: bool) -> Option<SpeakerWords<'_>>
    ensures { option_map said_seen result ≡ finished responder (given_seen given.entry) }
{
    if !hops_stand(given.next_hop, given.next_hop_v6) {
        return None;
    }
    let node = given.node?;
    let lanes = lane_files(given.lanes.first, given.lanes.second)?;
    if !responder_stands(responder, lanes) {
        return None;
    }
    Some(SpeakerWords {
        node,
        class: given.class,
        interfaces: given.interfaces,
        next_hop: given.next_hop,
        next_hop_v6: given.next_hop_v6,
        lanes,
        responder,
    })
}
