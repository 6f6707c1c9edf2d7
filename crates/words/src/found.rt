// What `signature` answers. In a file of its own: the type's name is the function's but for the case of a letter.

// What the signature call finds beside the word in its output: the word's least start and its symmetries.
#[derive(Clone, Copy, Debug, PartialEq, Eq)]
pub struct Signature {
    pub start: usize,
    pub symmetries: usize,
}
