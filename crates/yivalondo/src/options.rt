// The options of a scan.
use anyhow::bail;

// The texts that options were given.
#[derive(Clone, Copy, Default)]
pub struct Options<'a> {
    pub blocks: Option<&'a str>,
    pub seed: Option<&'a str>,
    pub entry: Option<&'a str>,
}

// The options that stand in front of the files, each a name and a value.
pub fn read_options<'a>(words: &'a [String]) -> anyhow::Result<Options<'a>> {
    let mut options = Options::default();
    for pair in words.chunks(2) {
        let [name, value] = pair else {
            bail!("scan takes options, each with a value, and then LIST and IMAGE");
        };
        let text = match name.as_str() {
            "--blocks" => &mut options.blocks,
            "--seed" => &mut options.seed,
            "--entry" => &mut options.entry,
            name => bail!("'{name}' is no option of scan: options stand before LIST and IMAGE"),
        };
        *text = Some(value.as_str());
    }
    Ok(options)
}
