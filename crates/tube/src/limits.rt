// The most bytes that the sections of a tube may have. A nonce and a tag have at least one.
// Kept: a tube knows nothing of modes, so the two limits that a mode has too stand here again.
pub const MAX_NONCE: usize = 16;

pub const MAX_LABEL: usize = 4096;

pub const MAX_CONTENTS: usize = 1048576;

pub const MAX_TAG: usize = 16;
