use ci_base::Text8;

/// What a commit writes as the root.
#[derive(Drop)]
pub struct Header {
    pub root: Text8,
}
