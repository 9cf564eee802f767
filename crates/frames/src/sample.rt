// Sample messages of a cell of three hosts.
use message::{Ballot, Head, HoldersEnd, KeepersEnd, Message, Numbers, Sizes};

// The cell that the samples are of.
pub fn sizes() -> Sizes {
    Sizes { n: 3 }
}

// A prepare request to host 2 with a ballot of host 0.
pub fn request(sender: u8, tick: u64) -> Message {
    Message::PrepareRequest(Head {
        sender,
        target: 2,
        ballot: Ballot { tick, host: 0 },
    })
}

// A message of a kind, between hosts 0 and 2, of host 0's ballot at 105; the spread of clocks is 5.
pub fn message_of_kind(kind: u16) -> Message {
    let (sender, target) = if message::is_response(kind) {
        (2, 0)
    } else {
        (0, 2)
    };
    let keepers = KeepersEnd(160);
    Message::from(Numbers {
        kind,
        sender,
        target,
        ballot: Ballot { tick: 105, host: 0 },
        accepted: Ballot { tick: 104, host: 1 },
        owner: 1,
        keepers,
        holders: keepers.to_holders(5),
    })
}
