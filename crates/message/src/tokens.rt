ghost use Rattle.std.specs.Prelude.{◌≡◌, ◌+◌, ◌≤◌, ◌<◌, [], ℕ, List, IfOk, length};
ghost use Rattle.message.specs.Decoding.{Reads, ReadsAs};
ghost use Rattle.message.specs.Reading.{alike_at, many_at, take_at};
ghost use Rattle.message.specs.Field.{size_at};
ghost use Rattle.message.specs.Tokens.{block_at, blocks_at, bytes_at, content_at, flush_at, fresh_content_at, grant_item_at, grant_items_at, index_at, kept_item_at, kept_items_at, piece_at, release_at, reported_at, revoke_at};
ghost use Rattle.token_kind.specs.Class.{class_number};
ghost use Rattle.cal_base.specs.Blocks.{block_count};
ghost use Rattle.cal_base.specs.Limits.{block_size, file_size};

use crate::input::Input;
use crate::names::copy_of;
use crate::stop::Stop;
use cal_base::{BLOCK_SIZE, Blob, Sector, UNFLUSHED_BLOCKS};
use std::alloc::Global;
use token_kind::{
    Class, Content, Flush, GrantItem, GrantItemList, Hold, HoldList, Piece, PieceList, Release,
    Reported, ReportedList, Revoke, Token,
};

impl<'a> Input<'a> {
    /// The contents of a file.
    fn contents(&mut self, alloc: Global) -> Result<Blob, Stop>
        ensures { Reads result self.new.rest.now (bytes_at self.old.rest.now) }
    {
        let count = self.size(262_144)?;
        let bytes = self.bytes(count as usize)?;
        Ok(copy_of(alloc, bytes)?)
    }

    fn fresh_content(&mut self, alloc: Global, class: Class) -> Result<Content, Stop>
        ensures { Reads result self.new.rest.now (fresh_content_at class self.old.rest.now) }
    {
        match class {
            Class::Names => Ok(Content::Names(self.entries(alloc)?)),
            Class::Data => Ok(Content::Bytes(self.contents(alloc)?)),
            Class::Attr => Ok(Content::Size(self.size(262_144)?)),
            Class::Open => Ok(Content::Nothing),
        }
    }

    #[tactic(auto, unfolding(crate::specs::Tokens::content_at))]
    fn content(&mut self, alloc: Global, class: Class, fresh: bool) -> Result<Content, Stop>
        ensures { Reads result self.new.rest.now (content_at class fresh self.old.rest.now) }
    {
        if fresh {
            self.fresh_content(alloc, class)
        } else {
            Ok(Content::Nothing)
        }
    }

    #[tactic(auto, unfolding(crate::specs::Tokens::grant_item_at))]
    fn grant_item(&mut self, alloc: Global) -> Result<GrantItem, Stop>
        ensures { Reads result self.new.rest.now (grant_item_at self.old.rest.now) }
    {
        let ino = self.inode()?;
        let class = self.class()?;
        let hold = self.hold(class)?;
        let fresh = self.fresh(class)?;
        let content = self.content(alloc, class, fresh)?;
        Ok(GrantItem {
            ino,
            class,
            hold,
            fresh,
            content,
        })
    }

    fn alike_grant_items(&mut self, alloc: Global, count: u16) -> Result<GrantItemList, Stop>
        ensures { Reads result self.new.rest.now (alike_at grant_item_at count self.old.rest.now) }
    {
        let mut items = GrantItemList::new(alloc);
        for place in 0..count {
            let item = self.grant_item(alloc)?;
            items.push(item)?;
        }
        Ok(items)
    }

    /// The tokens of a grant.
    #[tactic(auto, unfolding(crate::specs::Tokens::grant_items_at))]
    pub(crate) fn grant_items(&mut self, alloc: Global) -> Result<GrantItemList, Stop>
        ensures { Reads result self.new.rest.now (grant_items_at self.old.rest.now) }
    {
        let count = self.u16()?;
        self.alike_grant_items(alloc, count)
    }

    /// The index of a block, from the least one that may come on.
    fn index(&mut self, blocks: u32, least: u16) -> Result<u8, Stop>
        ensures { Reads result self.new.rest.now (index_at blocks least self.old.rest.now) }
    {
        let left = self.rest.len();
        let index = self.byte()?;
        if least <= u16::from(index) && u32::from(index) < blocks {
            Ok(index)
        } else {
            Err(Stop::Outside { left })
        }
    }

    fn sector(&mut self) -> Result<Sector, Stop>
        ensures { Reads result self.new.rest.now (take_at block_size self.old.rest.now) }
    {
        let bytes = self.bytes(BLOCK_SIZE)?;
        Ok(sector_of(bytes))
    }

    #[tactic(auto, unfolding(crate::specs::Tokens::block_at))]
    fn block(&mut self, blocks: u32, least: u16) -> Result<(u8, Sector), Stop>
        ensures { Reads result self.new.rest.now (block_at blocks least self.old.rest.now) }
    {
        let index = self.index(blocks, least)?;
        let block = self.sector()?;
        Ok((index, block))
    }

    fn ascending_blocks(&mut self, alloc: Global, blocks: u32, count: u8) -> Result<PieceList, Stop>
        ensures { Reads result self.new.rest.now (many_at (block_at blocks) (λ block. block.0 + 1) count 0 self.old.rest.now) }
    {
        let mut pieces = PieceList::new(alloc);
        let mut least = 0;
        for place in 0..count {
            let piece = self.block(blocks, least)?;
            least = u16::from(piece.0) + 1;
            pieces.push(piece)?;
        }
        Ok(pieces)
    }

    #[tactic(auto, unfolding(crate::specs::Tokens::blocks_at))]
    fn blocks(&mut self, alloc: Global, blocks: u32) -> Result<PieceList, Stop>
        ensures { Reads result self.new.rest.now (blocks_at blocks self.old.rest.now) }
    {
        let count = self.count(UNFLUSHED_BLOCKS)?;
        self.ascending_blocks(alloc, blocks, count)
    }

    /// The unflushed writes to a file.
    #[tactic(auto, unfolding(crate::specs::Tokens::flush_at))]
    pub(crate) fn flush(&mut self, alloc: Global) -> Result<Flush, Stop>
        ensures { Reads result self.new.rest.now (flush_at self.old.rest.now) }
    {
        let number = self.call_number()?;
        let ino = self.inode()?;
        let size = self.size(262_144)?;
        let cut = self.size(size)?;
        let leave_data = self.kept(Class::Data)?;
        let leave_attr = self.kept(Class::Attr)?;
        let pieces = self.blocks(alloc, block_count(size))?;
        Ok(Flush {
            number,
            ino,
            size,
            cut,
            leave_data,
            leave_attr,
            pieces,
        })
    }

    #[tactic(auto, unfolding(crate::specs::Tokens::kept_item_at))]
    fn kept_item(&mut self, last: u8, before: u8) -> Result<(Class, Hold), Stop>
        ensures { Reads result self.new.rest.now (kept_item_at last before self.old.rest.now) }
    {
        let class = self.next_class(last, before)?;
        let hold = self.kept(class)?;
        Ok((class, hold))
    }

    fn ascending_items(&mut self, alloc: Global, last: u8, count: u8) -> Result<HoldList, Stop>
        ensures { Reads result self.new.rest.now (many_at (kept_item_at last) (λ item. class_number item.0) count 0 self.old.rest.now) }
    {
        let mut items = HoldList::new(alloc);
        let mut before = 0;
        for place in 0..count {
            let item = self.kept_item(last, before)?;
            before = item.0.number();
            items.push(item)?;
        }
        Ok(items)
    }

    #[tactic(auto, unfolding(crate::specs::Tokens::kept_items_at))]
    fn kept_items(&mut self, alloc: Global, limit: u8, last: u8) -> Result<HoldList, Stop>
        ensures { Reads result self.new.rest.now (kept_items_at limit last self.old.rest.now) }
    {
        let count = self.count_from_one(limit)?;
        self.ascending_items(alloc, last, count)
    }

    /// What a server asks back of an inode.
    #[tactic(auto, unfolding(crate::specs::Tokens::revoke_at))]
    pub(crate) fn revoke(&mut self, alloc: Global) -> Result<Revoke, Stop>
        ensures { Reads result self.new.rest.now (revoke_at self.old.rest.now) }
    {
        let ino = self.inode()?;
        let items = self.kept_items(alloc, 2, 3)?;
        Ok(Revoke { ino, items })
    }

    /// What a client gives up of an inode.
    #[tactic(auto, unfolding(crate::specs::Tokens::release_at))]
    pub(crate) fn release(&mut self, alloc: Global) -> Result<Release, Stop>
        ensures { Reads result self.new.rest.now (release_at self.old.rest.now) }
    {
        let ino = self.inode()?;
        let items = self.kept_items(alloc, 3, 4)?;
        Ok(Release { ino, items })
    }

    #[tactic(auto, unfolding(crate::specs::Tokens::reported_at))]
    fn reported(&mut self) -> Result<Reported, Stop>
        ensures { Reads result self.new.rest.now (reported_at self.old.rest.now) }
    {
        let ino = self.inode()?;
        let class = self.class()?;
        let hold = self.held(class)?;
        let flush = self.u64()?;
        let leave = self.left(class, flush)?;
        let token = Token { ino, class, hold };
        Ok(Reported {
            token,
            flush,
            leave,
        })
    }

    fn alike_reported(&mut self, alloc: Global, count: u8) -> Result<ReportedList, Stop>
        ensures { Reads result self.new.rest.now (alike_at reported_at count self.old.rest.now) }
    {
        let mut holds = ReportedList::new(alloc);
        for place in 0..count {
            let hold = self.reported()?;
            holds.push(hold)?;
        }
        Ok(holds)
    }

    /// A piece of the report of what a client holds.
    #[tactic(auto, unfolding(crate::specs::Tokens::piece_at))]
    pub(crate) fn piece(&mut self, alloc: Global) -> Result<Piece, Stop>
        ensures { Reads result self.new.rest.now (piece_at self.old.rest.now) }
    {
        let index = self.u16()?;
        let last = self.flag()?;
        let count = self.count(32)?;
        let holds = self.alike_reported(alloc, count)?;
        Ok(Piece { index, last, holds })
    }
}

/// How many blocks begin before a size.
fn block_count(size: u32) -> u32
    requires { size ≤ file_size }
    ensures { result ≡ block_count size }
{
    (size + 4_095) / 4_096
}

fn sector_of(bytes: &[u8]) -> Sector
    requires { length bytes.now ≡ block_size }
    ensures { result ≡ bytes.now }
{
    let mut sector = [0; BLOCK_SIZE];
    sector.copy_from_slice(bytes);
    sector
}
