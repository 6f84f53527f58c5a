//! Which stream takes the pages of a kind.
use budget::Stream;
use page_layout::record::Kind;

const STREAMS: [(Kind, Stream); 4] = [
    (Kind::Sector, Stream::Data),
    (Kind::Trim, Stream::Data),
    (Kind::Translation, Stream::Meta),
    (Kind::Table, Stream::Meta),
];

#[test]
fn trims_go_with_sectors(rt: HostRuntime) {
    for (kind, stream) in STREAMS {
        assert!(rt; Stream::of(kind) == stream, "at {kind:?}");
    }
}
