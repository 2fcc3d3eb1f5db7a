//! Laws of the header. These functions do nothing: what they ensure is what they are for.
ghost use Rattle.fit_frame.specs.Beginning.{HeadersEndOnce};
ghost use Rattle.fit_frame.specs.Header.{HeadersHaveOneSpelling, HeadersHaveTheirSize};

/// A header with its data size and its bytes determine each other, and no header's bytes begin those
/// of another.
#[tactic(auto, using(crate::proofs::OneHeader::headers_have_one_spelling))]
pub fn headers_have_one_spelling()
    ensures { HeadersHaveOneSpelling }
{}

/// A header has as many bytes as its size says: twelve, or from 14 to 255.
#[tactic(auto, using(crate::proofs::OneHeader::headers_have_their_size))]
pub fn headers_have_their_size()
    ensures { HeadersHaveTheirSize }
{}

/// A complete header with bytes after it doesn't begin a header: it ends in one place.
#[tactic(auto, using(crate::proofs::OneHeader::headers_end_once))]
pub fn headers_end_once()
    ensures { HeadersEndOnce }
{}
