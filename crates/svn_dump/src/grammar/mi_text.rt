//! The mergeinfo of a node block.
ghost use Rattle.std.specs.Prelude.{◌≡◌, IfErr, IfOk, option_map};
ghost use Rattle.svn_dump.specs.Draft.{Extends};
ghost use Rattle.svn_dump.specs.HeaderValues.{mi_text_view, setting_from_section};
ghost use Rattle.svn_dump.specs.Property.{setting_unnamed};
ghost use Rattle.svn_dump.specs.DumpText.{texts_of_setting};
ghost use Rattle.svn_dump.specs.NumberedRecord.{IsNumberedSetting, IsTooLarge, is_full_with};

use crate::grammar::section::mergeinfo_of;
use crate::read_error::ReadError;
use crate::record::Mi;
use crate::texts::Texts;

/// What a node block says of the mergeinfo of its path: an `Mi` by its text, which the dump lends.
#[derive(Clone, Copy)]
pub(crate) enum MiText<'a> {
    Keep,
    Put(Option<&'a [u8]>),
}

impl<'a> MiText<'a> {
    /// What a section says that doesn't name `svn:mergeinfo`.
    pub(crate) fn unnamed(has_changes: bool) -> Self
        ensures { mi_text_view result ≡ setting_unnamed has_changes }
    {
        if has_changes {
            MiText::Keep
        } else {
            MiText::Put(None)
        }
    }

    /// What a property section says, which is empty where the block has none.
    pub(crate) fn of(has_changes: bool, properties: &'a [u8]) -> Option<Self>
        ensures { option_map mi_text_view result ≡ setting_from_section has_changes properties.now }
    {
        if properties.is_empty() {
            Some(MiText::Keep)
        } else {
            mergeinfo_of(has_changes, properties)
        }
    }

    /// What it says, with the number of the text, which the table takes where it is new.
    pub(crate) fn into_mi(self, texts: &mut Texts) -> Result<Mi, ReadError>
        ensures setting { IfOk result (IsNumberedSetting (mi_text_view self.entry) texts.old texts.new) }
        ensures refused { IfErr result
            (IsTooLarge (is_full_with texts.old (texts_of_setting (mi_text_view self.entry)))) }
        ensures grows { Extends texts.old texts.new }
    {
        Ok(match self {
            MiText::Keep => Mi::Keep,
            MiText::Put(None) => Mi::Put(None),
            MiText::Put(Some(text)) => Mi::Put(Some(texts.add(text)?)),
        })
    }
}
