//! Packets and records as bytes. Each has one text of version 2, which is what is written, and at
//! most one of version 1. `decode` or `decode_front` reads both, and nothing else.
//!
//! In reading order:
//! - `packet`: what nodes and tasks say to one another
//! - `items`: lists that a packet carries: actions, and votes for a range
//! - `rules`: who may say what to whom
//! - `kind`: the kinds of packets
//! - `version`: the versions of texts
//! - `party_text`: the byte by which a packet names a party
//! - `reader`: bytes that are read from the front
//! - `fields`: the fields that are in more than one text: numbers, positions and ballots
//! - `action_text`: actions as bytes
//! - `reply_text`: replies as bytes
//! - `list_text`: lists in texts
//! - `report_text`: reports as bytes
//! - `votes_text`: promises for a range as bytes
//! - `body_text`: bodies as bytes
//! - `content`: what was read of a packet, before memory is taken for a list
//! - `usual_texts`: packets of the usual kinds, each read by a function of its own
//! - `usual_encoding`: packets and records of the usual kinds to bytes, each in one piece
//! - `tails`: how texts of the usual kinds end, and texts that are made of it
//! - `encoding`: packets to bytes
//! - `decoding`: bytes to packets
//! - `lengths`: where a packet's text ends, without reading it
//! - `record_text`: records as bytes
//! - `short_text`: texts that need no memory
#![tactic(auto)]

mod action_text;
mod body_text;
mod content;
mod decoding;
mod encoding;
mod fields;
mod items;
mod kind;
mod lengths;
mod list_text;
mod packet;
mod party_text;
mod reader;
mod record_text;
mod reply_text;
mod report_text;
mod rules;
mod short_text;
mod tails;
mod usual_encoding;
mod usual_texts;
mod version;
mod votes_text;

pub use decoding::{decode, packet_len};
pub use encoding::{encode, encode_onto, one_text, text_of_packet, two_texts};
pub use items::{Actions, Items, Votes};
pub use kind::Kind;
pub use lengths::text_len;
pub use packet::{Body, Packet, Party};
pub use party_text::{RECEIVER, party_number, party_of, receiver_of};
pub use record_text::{
    decode_front, encode_rec, one_record_text, text_of_record, two_record_texts,
};
pub use rules::report_len;
pub use short_text::{LONGEST_TEXT, ShortText};
pub use tails::{
    DecisionTail, VoteTail, accepted_by, decided_by, decision_of, decision_tail, learned_by,
    vote_tail, voted_by,
};
pub use usual_encoding::{
    accept_text, accepted_text, decided_text, is_call, learned_text, prepare_text, promise_text,
    promised_text, started_text, value_reply_text, voted_text,
};
pub use usual_texts::{
    Header, SentCall, SentDecision, SentReply, usual_accept, usual_accepted, usual_call,
    usual_decided, usual_prepare, usual_promise, usual_reply,
};
pub use version::Version;
