/// What a notified listener was given: the kind of the notification, and the tag.
#[derive(Drop)]
pub struct Notice<T> {
    /// Whether the notification was an additional one.
    pub additional: bool,
    /// The tag, which the listener keeps until the tag is taken.
    pub tag: T,
}
