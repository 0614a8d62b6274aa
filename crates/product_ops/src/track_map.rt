//! Which tracks of a result each operand reads.

ghost use Rattle.std.specs.Prelude.{◌≡◌, IfOk};
ghost use Rattle.std.specs.List.{range_with_len};
ghost use Rattle.product_ops.specs.Tracks.{AreTracks};

use lash_io::Memory;
use std::alloc::Global;
use std::marker::Model;

/// The tracks of a result, and those that its left and its right operand read: the operand's track i is the result's track at place
/// i of the operand's list. The entries of each list are distinct tracks.
#[derive(Drop)]
pub struct TrackMap {
    tracks: u32,
    left: Vec<u32>,
    right: Vec<u32>,
}

impl Model for TrackMap {
    ghost use Rattle.product_ops.specs.Tracks.{TrackLists, AreTracks};

    ghost Value = { TrackLists };

    ghost view = { λ m. record { tracks = m.tracks; left = m.left.items; right = m.right.items } };

    ghost invariant = { λ m. AreTracks m.tracks m.left.items × AreTracks m.tracks m.right.items };
}

impl TrackMap {
    /// So many tracks, those that the left operand reads and those that the right one reads. The entries of each list are distinct
    /// and below the number of tracks.
    pub fn new(tracks: u32, left: Vec<u32>, right: Vec<u32>) -> TrackMap
        requires left { AreTracks tracks left.items }
        requires right { AreTracks tracks right.items }
        ensures { result ≡ record { tracks = tracks; left = left.items; right = right.items } }
    {
        TrackMap {
            tracks,
            left,
            right,
        }
    }

    /// The number of tracks of the result.
    pub fn tracks(&self) -> u32
        ensures { result ≡ self.now.tracks }
    {
        self.tracks
    }

    /// The tracks that the left operand reads.
    pub fn left(&self) -> &[u32]
        ensures value { result.now ≡ self.now.left }
        ensures tracks { AreTracks self.now.tracks self.now.left }
    {
        self.left.as_slice()
    }

    /// The tracks that the right operand reads.
    pub fn right(&self) -> &[u32]
        ensures value { result.now ≡ self.now.right }
        ensures tracks { AreTracks self.now.tracks self.now.right }
    {
        self.right.as_slice()
    }
}

/// All of so many tracks, rising: distinct, as a map asks for. Fails only if memory runs out.
pub fn all_tracks(alloc: Global, tracks: u32) -> Result<Vec<u32>, Memory>
    ensures items { IfOk result (λ v. v.items ≡ range_with_len 0 tracks) }
    ensures tracks { AreTracks tracks (range_with_len 0 tracks) }
{
    match (0..tracks).collect(alloc) {
        Ok(places) => Ok(places),
        Err(_) => Err(Memory),
    }
}
