// What a pass knows, as contracts see it. No value of these types is made.

/// What the pass of a lane knows of its lane.
pub struct LaneView {
    pub lane: u64,
    /// The lane's word.
    pub word: u64,
    /// The lane's reach in the value that the pass last gave back; at first, in the value at opening.
    pub reach_given: u64,
}

/// What a reader's pass has read. A clause reads an array as a list, of any length.
pub struct ReaderView {
    /// The last word read of each lane.
    pub words_read: [u64; 0],
    /// How often each lane's word was loaded.
    pub loads: [u64; 0],
    /// How many passes of lanes were made.
    pub lanes_made: u64,
    /// How often this pass was split, and those that it comes from.
    pub splits: u64,
    /// That this pass wrote the stop word.
    pub wrote_stop: bool,
}

/// Which kind of pass it is.
pub enum Role {
    Raises(LaneView),
    Reads(ReaderView),
}

/// What a pass knows.
pub struct PassView<V, N> {
    pub name: N,
    /// The value at opening.
    pub opening: V,
    pub role: Role,
    /// The value as this pass took it, while it holds.
    pub held_value: Option<V>,
    /// The value that this pass last gave back.
    pub given_value: Option<V>,
    /// How often it tried the turn.
    pub tries: u64,
    /// The word that it last found in the turn.
    pub turn_found: u64,
    /// How often it loaded the stop word.
    pub stop_loads: u64,
    /// What it last found in the stop word.
    pub stop_found: u64,
}
