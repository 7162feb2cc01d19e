//! The kinds of packets.

ghost use Rattle.std.specs.Prelude.{◌≡◌};
ghost use Rattle.rp_codec.specs.Kind.{kind_of, kind_in, kind_of_body, number_of_kind};

use crate::packet::Body;

/// Which variant of `Body` a packet has.
#[derive(Clone, Copy, PartialEq, Eq)]
pub enum Kind {
    Call,
    Prepare,
    Promise,
    Accept,
    Accepted,
    Decided,
    Ask,
    Nack,
    Reply,
    Report,
    PrepareRange,
    PromiseRange,
}

impl Kind {
    /// Its number, the second byte of each text.
    #[inline(always)]
    pub(crate) fn number(self) -> u8
        ensures { result ≡ number_of_kind self }
    {
        match self {
            Kind::Call => 1,
            Kind::Prepare => 2,
            Kind::Promise => 3,
            Kind::Accept => 4,
            Kind::Accepted => 5,
            Kind::Decided => 6,
            Kind::Ask => 7,
            Kind::Nack => 8,
            Kind::Reply => 9,
            Kind::Report => 10,
            Kind::PrepareRange => 12,
            Kind::PromiseRange => 13,
        }
    }

    /// The kind of this number, if it is one.
    #[inline(always)]
    pub(crate) fn of(number: u8) -> Option<Self>
        ensures { result ≡ kind_of number }
    {
        match number {
            1 => Some(Kind::Call),
            2 => Some(Kind::Prepare),
            3 => Some(Kind::Promise),
            4 => Some(Kind::Accept),
            5 => Some(Kind::Accepted),
            6 => Some(Kind::Decided),
            7 => Some(Kind::Ask),
            8 => Some(Kind::Nack),
            9 => Some(Kind::Reply),
            10 => Some(Kind::Report),
            12 => Some(Kind::PrepareRange),
            13 => Some(Kind::PromiseRange),
            _ => None,
        }
    }

    /// The kind of a body.
    #[inline(always)]
    pub(crate) fn of_body(body: &Body) -> Self
        ensures { result ≡ kind_of_body body.now }
    {
        match body {
            Body::Call { .. } => Kind::Call,
            Body::Prepare { .. } => Kind::Prepare,
            Body::Promise { .. } => Kind::Promise,
            Body::Accept { .. } => Kind::Accept,
            Body::Accepted { .. } => Kind::Accepted,
            Body::Decided { .. } => Kind::Decided,
            Body::Ask { .. } => Kind::Ask,
            Body::Nack { .. } => Kind::Nack,
            Body::Reply { .. } => Kind::Reply,
            Body::Report { .. } => Kind::Report,
            Body::PrepareRange { .. } => Kind::PrepareRange,
            Body::PromiseRange { .. } => Kind::PromiseRange,
        }
    }

    /// The kind of the packet whose text these bytes are, if they are one's: of a text of either
    /// version it is the second byte.
    #[inline(always)]
    pub fn of_text(bytes: &[u8]) -> Option<Self>
        ensures { result ≡ kind_in bytes.now }
    {
        let number = bytes.get(1)?;
        Kind::of(*number)
    }
}
