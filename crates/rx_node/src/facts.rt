/// What decides the rows of a message before that of its call.
#[derive(Clone, Copy, Debug, PartialEq, Eq)]
pub struct Facts {
    /// The connection has a record.
    pub is_known: bool,
    /// The message has a call number.
    pub has_number: bool,
    /// It is an ABORT without a call number.
    pub stops_all: bool,
    /// It is a data packet that a call may begin with.
    pub can_start: bool,
    /// Its number is below that of its channel.
    pub is_below: bool,
    /// Its number is above that of its channel.
    pub is_above: bool,
    /// The channel's latest call lives.
    pub is_live: bool,
    /// It lives and isn't broken.
    pub is_active: bool,
    /// Its handler is at work.
    pub is_handled: bool,
    /// As many calls live as may.
    pub is_crowded: bool,
}
