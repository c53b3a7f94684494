//! SET.

use yasna::tags::{TAG_BOOLEAN, TAG_INTEGER, TAG_UTF8STRING};
use yasna::{ASN1Result, BERReader, DERWriter};

#[derive(Drop)]
pub struct Setting {
    pub number: i64,
    pub enabled: bool,
    pub note: Option<String>,
}

pub fn read_setting(reader: BERReader) -> ASN1Result<Setting> {
    reader.read_set(|elements| {
        let number = elements.next(&[TAG_INTEGER])?.read_i64()?;
        let enabled = elements.read_default(&[TAG_BOOLEAN], true, |flag| flag.read_bool())?;
        let note = elements.read_optional(&[TAG_UTF8STRING], |text| text.read_utf8string())?;
        Ok(Setting {
            number,
            enabled,
            note,
        })
    })
}

pub fn write_setting(setting: &Setting, writer: DERWriter<'_>) -> ASN1Result<()> {
    writer.write_set(|elements| {
        elements.next().write_i64(setting.number)?;
        if !setting.enabled {
            elements.next().write_bool(false)?;
        }
        match &setting.note {
            Some(note) => elements.next().write_utf8string(note),
            None => Ok(()),
        }
    })
}
