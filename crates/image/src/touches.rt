ghost use Rattle.std.specs.Prelude.{◌≡◌, ◌++◌, ◌∷◌, [], IfOk, OnOk};
ghost use Rattle.token_kind.specs.Class.{class_number};
ghost use Rattle.tree_law.specs.Needs.{touched_file, touched_names, touched_places, touched_rename, touched_rmdir, touched_target, touched_unlink};
ghost use Rattle.volume_plan.specs.Shown.{shown};
ghost use Rattle.image.specs.Planning.{touch_numbers};

use crate::change_plan::TouchList;
use crate::image::Image;
use cal_base::{Ino, Items, Oom};
use std::alloc::Global;
use token_kind::Class;
use tree_law::{Lookup, Move, Why};

/// One more is touched.
fn put_touch(touches: &mut TouchList, ino: Ino, class: Class) -> Result<(), Oom>
    ensures { OnOk result (touch_numbers touches.new ≡ touch_numbers touches.old ++ (ino, class_number class) ∷ []) }
{
    touches.push((ino, class))?;
    Ok(())
}

/// The Data and Attr of a file are touched.
fn put_file(touches: &mut TouchList, ino: Ino) -> Result<(), Oom>
    ensures { OnOk result (touch_numbers touches.new ≡ touch_numbers touches.old ++ touched_file ino) }
{
    put_touch(touches, ino, Class::Data)?;
    put_touch(touches, ino, Class::Attr)
}

/// The Names of a directory, if there is one.
pub(crate) fn touched_names(alloc: Global, place: Result<Ino, Why>) -> Result<TouchList, Oom>
    ensures { IfOk result (λ touches. touch_numbers touches ≡ touched_names place) }
{
    let mut touches = Items::new(alloc);
    if let Ok(ino) = place {
        put_touch(&mut touches, ino, Class::Names)?;
    }
    Ok(touches)
}

/// What `unlink` of a file in a directory touches.
pub(crate) fn touched_unlink(
    alloc: Global,
    file: Result<Ino, Why>,
    place: Result<Ino, Why>,
) -> Result<TouchList, Oom>
    ensures { IfOk result (λ touches. touch_numbers touches ≡ touched_unlink file place) }
{
    let Ok(ino) = file else {
        return Ok(Items::new(alloc));
    };
    let mut touches = touched_names(alloc, place)?;
    put_file(&mut touches, ino)?;
    Ok(touches)
}

/// What `rmdir` of a directory in another touches.
pub(crate) fn touched_rmdir(
    alloc: Global,
    directory: Result<Ino, Why>,
    place: Result<Ino, Why>,
) -> Result<TouchList, Oom>
    ensures { IfOk result (λ touches. touch_numbers touches ≡ touched_rmdir directory place) }
{
    let Ok(ino) = directory else {
        return Ok(Items::new(alloc));
    };
    let mut touches = touched_names(alloc, place)?;
    put_touch(&mut touches, ino, Class::Names)?;
    Ok(touches)
}

/// The Names of the two directories of a move, or of the one.
fn touched_places(alloc: Global, from: Ino, to: Ino) -> Result<TouchList, Oom>
    ensures { IfOk result (λ touches. touch_numbers touches ≡ touched_places from to) }
{
    let mut touches = Items::new(alloc);
    put_touch(&mut touches, from, Class::Names)?;
    if from.0 != to.0 {
        put_touch(&mut touches, to, Class::Names)?;
    }
    Ok(touches)
}

impl Image {
    /// What is touched of that which a move replaces.
    fn put_target(&self, touches: &mut TouchList, target: Option<Ino>) -> Result<(), Oom>
        ensures { OnOk result (touch_numbers touches.new ≡ touch_numbers touches.old ++ touched_target (shown self.now) target) }
    {
        let Some(ino) = target else {
            return Ok(());
        };
        if self.is_directory(ino) {
            put_touch(touches, ino, Class::Names)
        } else {
            put_file(touches, ino)
        }
    }

    /// What `rename` touches.
    pub(crate) fn touched_rename(
        &self,
        alloc: Global,
        moving: Result<Move, Why>,
    ) -> Result<TouchList, Oom>
        ensures { IfOk result (λ touches. touch_numbers touches ≡ touched_rename (shown self.now) moving) }
    {
        let Ok(moving) = moving else {
            return Ok(Items::new(alloc));
        };
        if moving.is_same {
            return Ok(Items::new(alloc));
        }
        let mut touches = touched_places(alloc, moving.from, moving.to)?;
        self.put_target(&mut touches, moving.replaced)?;
        Ok(touches)
    }
}
